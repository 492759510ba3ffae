// The header's generator. Its fourth power is x^64 + x^48 + x^20 + 1, so that 64 bits are taken in at once; a remainder by it has the same
// remainder by the generator.
ghost use Rattle.std.specs.Prelude.{◌≡◌, ◌≤◌};
ghost use Rattle.foundation.specs.Bits.{digits};
ghost use Rattle.polynomials.specs.Remainder.{divide, check};
ghost use Rattle.folds.specs.Folds.{header_generator, header_fourth, header_times, header_halved};

// The register of the fourth power times x^64.
fn times_word(r: u64) -> u64
    ensures { result ≡ header_times r }
{
    let t = r ^ (r >> 16) ^ (r >> 44);
    let u = t ^ (t >> 32);
    (u << 48) ^ (u << 20) ^ u
}

// It takes in 64 bits.
pub fn take_word(r: u64, w: u64) -> u64
    ensures { result ≡ divide 64 header_fourth r (digits 64 w) 64 }
{
    times_word(r) ^ w
}

// 32 K bits to 16 K.
fn halved<const K: u32>(x: u64) -> u64
    requires { K ≤ 2 }
    ensures { result ≡ header_halved K x }
{
    let t = x >> (16 * K);
    let v = t ^ (t >> (4 * K)) ^ (t >> (11 * K));
    let u = v ^ (v >> (8 * K));
    (x ^ (u << (12 * K)) ^ (u << (5 * K)) ^ u) % (1 << (16 * K))
}

// The header's check of 64 bits.
pub fn check_of(x: u64) -> u16
    ensures { result ≡ check 16 header_generator (digits 64 x) 64 }
{
    (halved::<1>(halved::<1>(halved::<2>(x)) << 16) % 0x1_0000) as u16
}
