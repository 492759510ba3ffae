// Division of polynomials over GF(2), a bit at a time, by every generator of degree 32. A generator of a lower degree n
// is taken times x^(32 - n): its checks then stand in the n high bits of the register.
#![tactic(auto)]

ghost use Rattle.std.specs.Prelude.{◌≡◌, ◌+◌, ◌*◌, ◌^◌, length};
ghost use Rattle.std.specs.Int.Bits.{bit_xor};
ghost use Rattle.foundation.specs.Bits.{zeros, octet_bit};
ghost use Rattle.polynomials.specs.Remainder.{divide, check};

// The register r times x. The generator is x^32 + g.
fn shift(g: u32, r: u32) -> u32
    ensures { result ≡ divide 32 (2 ^ 32 + g) r zeros 1 }
{
    if r < 0x8000_0000 {
        r << 1
    } else {
        (r << 1) ^ g
    }
}

// The register r times x^k.
pub fn shifts(g: u32, r: u32, k: usize) -> u32
    ensures { result ≡ divide 32 (2 ^ 32 + g) r zeros k }
{
    let mut s = r;
    for _ in 0..k {
        s = shift(g, s);
    }
    s
}

// The register takes in an octet.
pub fn take_octet(g: u32, r: u32, o: u8) -> u32
    ensures { result ≡ divide 32 (2 ^ 32 + g) (bit_xor r (o * 2 ^ 24)) zeros 8 }
{
    shifts(g, r ^ ((o as u32) << 24), 8)
}

// The check of octets.
pub fn check_of(g: u32, octets: &[u8]) -> u32
    ensures { result ≡ check 32 (2 ^ 32 + g) (octet_bit octets.now) (8 * length octets.now) }
{
    let mut r: u32 = 0;
    for octet in octets {
        r = take_octet(g, r, *octet);
    }
    r
}
