// A square of 16 by 16 bits in four words, turned: its columns for its rows. Half of the bits of each word change places within it, the
// others between two words, in steps of 1, 2, 4 and 8 rows.
ghost use Rattle.std.specs.Prelude.{◌≡◌, ◌<◌};
ghost use Rattle.interleaver.specs.Lanes.{swapped, crossed_high, crossed_low, within, turned_square};

// A row in each lane of 16 bits, the first highest in a.
#[derive(Clone, Copy, Debug, PartialEq, Eq)]
pub struct Square {
    pub a: u64,
    pub b: u64,
    pub c: u64,
    pub d: u64,
}

// Where steps of 1, 2, 4 and 8 rows exchange bits.
const ONES: u64 = 0x0000_AAAA_0000_AAAA;

const TWOS: u64 = 0x0000_0000_CCCC_CCCC;

const FOURS: u64 = 0xF0F0_F0F0_F0F0_F0F0;

const EIGHTS: u64 = 0xFF00_FF00_FF00_FF00;

// The bits of a mask exchanged with those S places higher.
fn swapped<const S: u32, const MASK: u64>(x: u64) -> u64
    requires { S < 64 }
    ensures { result ≡ swapped S MASK x }
{
    let t = ((x >> S) ^ x) & MASK;
    x ^ t ^ (t << S)
}

fn swapped_both(x: u64) -> u64
    ensures { result ≡ within x }
{
    swapped::<30, TWOS>(swapped::<15, ONES>(x))
}

// The bits of a mask in the second of two words exchanged with those of the first that stand S places lower.
fn crossed<const S: u32, const MASK: u64>(p: u64, q: u64) -> (u64, u64)
    requires { S < 64 }
    ensures { (result.0 ≡ crossed_high S MASK p q) × (result.1 ≡ crossed_low S MASK p q) }
{
    let t = ((p << S) ^ q) & MASK;
    (p ^ (t >> S), q ^ t)
}

// The square with its columns for rows.
pub fn turned(x: Square) -> Square
    ensures { result ≡ turned_square x }
{
    let p = swapped_both(x.a);
    let q = swapped_both(x.b);
    let r = swapped_both(x.c);
    let s = swapped_both(x.d);
    let (first, second) = crossed::<4, FOURS>(p, q);
    let (third, fourth) = crossed::<4, FOURS>(r, s);
    let (a, c) = crossed::<8, EIGHTS>(first, third);
    let (b, d) = crossed::<8, EIGHTS>(second, fourth);
    Square { a, b, c, d }
}
