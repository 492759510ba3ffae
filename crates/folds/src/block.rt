// The block's generator. What stands above a register comes back at the lower powers of the generator, of its square and of its fourth
// power, so that each step halves what is left.
ghost use Rattle.std.specs.Prelude.{◌≡◌, ◌+◌, ◌*◌, ◌^◌, ◌≤◌, ◌<◌};
ghost use Rattle.foundation.specs.Bits.{digits, octet_bit, followed};
ghost use Rattle.polynomials.specs.Remainder.{remainder, check};
ghost use Rattle.folds.specs.Folds.{block_generator, block_entered, block_halved};

// 96 bits to 64: the 32 highest come back at x^52, x^44, x^40 and x^28.
#[tactic(auto, unfolding(crate::specs::Folds::block_entered))]
fn entered(a: u64, b: u64) -> u64
    ensures { result ≡ block_entered a b }
{
    let u = a ^ (a >> 12) ^ (a >> 20);
    b ^ (u << 52) ^ (u << 44) ^ (u << 40) ^ (u << 28)
}

// 18 K bits to nine K.
fn halved<const K: u32>(x: u64) -> u64
    requires { K ≤ 4 }
    ensures { result ≡ block_halved K x }
{
    let t = x >> (9 * K);
    let u = t ^ (t >> (3 * K)) ^ (t >> (5 * K));
    (x ^ (u << (6 * K)) ^ (u << (4 * K)) ^ (u << (3 * K)) ^ u) % (1 << (9 * K))
}

// The remainder of 96 bits.
fn remainder_of(high: u64, low: u64) -> u16
    requires { high < 2 ^ 32 }
    ensures { result ≡ remainder 9 block_generator (digits 96 (high * 2 ^ 64 + low)) 96 }
{
    halved::<1>(halved::<2>(halved::<4>(entered(high, low)))) as u16
}

// The check of the first ten octets, zeros where there are fewer, and of the seven low bits of a serial behind them.
pub fn of_ten(serial: u8, octets: &[u8]) -> u16
    ensures { result ≡ check 9 block_generator (followed 80 (octet_bit octets.now) (digits 7 serial)) 87 }
{
    let first = foundation::octets::word_at(octets, 0);
    let last = foundation::octets::word_at(octets, 2);
    remainder_of(first >> 32, (last << 16) + 512 * ((serial % 128) as u64))
}
