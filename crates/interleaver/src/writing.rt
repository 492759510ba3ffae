// The sent order made: the steps of reading, from the last to the first.
ghost use Rattle.std.specs.Prelude.{◌≡◌, ◌≤◌, ◌<◌};
ghost use Rattle.foundation.specs.Bits.{octets as octets·bits};
ghost use Rattle.interleaver.specs.Writing.{sent_run, spread_word, groups_of, fifteen, five_runs, field_octets};

use crate::lanes::{Square, turned};
use foundation::octets::octets_of;

// The 15 bits of each row; higher ones do not count.
fn words(m: [u16; 13]) -> [u64; 13]
    ensures { result ≡ fifteen m }
{
    m.map(|row| (row % 0x8000) as u64)
}

// 52 bits to the thirteen high bits of each lane.
#[tactic(auto, unfolding(crate::specs::Writing::spread_word))]
fn spread(w: u64) -> u64
    ensures { result ≡ spread_word w }
{
    (((w >> 39) % 0x2000) << 51)
        ^ (((w >> 26) % 0x2000) << 35)
        ^ (((w >> 13) % 0x2000) << 19)
        ^ ((w % 0x2000) << 3)
}

// The plain order of 13 rows, thirteen bits in a lane behind an empty one.
fn groups(m: [u64; 13]) -> Square
    ensures { result ≡ groups_of m }
{
    Square {
        a: spread((m[0] << 24) ^ (m[1] << 9) ^ (m[2] >> 6)),
        b: spread((m[2] << 46) ^ (m[3] << 31) ^ (m[4] << 16) ^ (m[5] << 1) ^ (m[6] >> 14)),
        c: spread((m[6] << 38) ^ (m[7] << 23) ^ (m[8] << 8) ^ (m[9] >> 7)),
        d: spread((m[9] << 45) ^ (m[10] << 30) ^ (m[11] << 15) ^ m[12]),
    }
}

// 64 bits of the field: the rest of the first run of h, the last three of x, and the start of its first. The runs of h are those behind x.
#[tactic(auto, unfolding(crate::specs::Writing::five_runs))]
fn five_runs(h: u64, x: u64, s: u64) -> u64
    requires { (45 ≤ s) × (s < 64) }
    ensures { result ≡ five_runs s h x }
{
    ((h >> 48) << s)
        ^ ((x % 0x1_0000) << (s - 15))
        ^ (((x >> 16) % 0x1_0000) << (s - 30))
        ^ (((x >> 32) % 0x1_0000) << (s - 45))
        ^ (x >> (108 - s))
}

// The 25 octets of a field of 64, 64, 64 and 8 bits, the last in the highest of d.
pub fn field_of(a: u64, b: u64, c: u64, d: u64) -> [u8; 25]
    ensures { result ≡ field_octets a b c d }
{
    let mut field = [0; 25];
    field[..8].copy_from_slice(&octets_of(a));
    field[8..16].copy_from_slice(&octets_of(b));
    field[16..24].copy_from_slice(&octets_of(c));
    field[24] = octets_of(d)[0];
    field
}

// The field of 13 rows, column 0 at bit 14; higher bits of a row do not count.
pub fn octets(m: [u16; 13]) -> [u8; 25]
    ensures { result ≡ octets·bits 25 (sent_run m) }
{
    let x = turned(groups(words(m)));
    let a = five_runs(x.d, x.c, 48);
    let b = five_runs(x.c, x.b, 52);
    let c = five_runs(x.b, x.a, 56);
    let d = (x.a >> 48) << 60;
    field_of(a, b, c, d)
}
