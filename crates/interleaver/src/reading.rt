// The sent order undone.
ghost use Rattle.std.specs.Prelude.{◌≡◌};
ghost use Rattle.foundation.specs.Bits.{tabulate};
ghost use Rattle.interleaver.specs.Reading.{runs_of, grouped, cut_words, field_words, received_row};

use crate::lanes::{Square, turned};
use foundation::octets;

// A field of 64, 64, 64 and 8 bits.
#[derive(Clone, Copy)]
struct Words {
    a: u64,
    b: u64,
    c: u64,
    d: u64,
}

// The 13 runs of a field of 64, 64, 64 and 8 bits, the last first.
#[tactic(auto, unfolding(crate::specs::Reading::runs_of))]
fn runs(w: Words) -> Square
    ensures { result ≡ runs_of w.a w.b w.c w.d }
{
    let Words { a, b, c, d } = w;
    Square {
        a: ((((c << 4) ^ (d >> 4)) % 0x8000) << 48)
            ^ (((c >> 11) % 0x8000) << 32)
            ^ (((c >> 26) % 0x8000) << 16)
            ^ ((c >> 41) % 0x8000),
        b: ((((b << 8) ^ (c >> 56)) % 0x8000) << 48)
            ^ (((b >> 7) % 0x8000) << 32)
            ^ (((b >> 22) % 0x8000) << 16)
            ^ ((b >> 37) % 0x8000),
        c: ((((a << 12) ^ (b >> 52)) % 0x8000) << 48)
            ^ (((a >> 3) % 0x8000) << 32)
            ^ (((a >> 18) % 0x8000) << 16)
            ^ ((a >> 33) % 0x8000),
        d: ((a >> 48) % 0x8000) << 48,
    }
}

// The thirteen high bits of each lane, one behind the other.
#[tactic(auto, unfolding(crate::specs::Reading::grouped))]
fn group(y: u64) -> u64
    ensures { result ≡ grouped y }
{
    ((y >> 51) % 0x2000 << 39)
        ^ ((y >> 35) % 0x2000 << 26)
        ^ ((y >> 19) % 0x2000 << 13)
        ^ ((y >> 3) % 0x2000)
}

// The plain order, in 39, 52, 52 and 52 bits, cut into rows.
#[tactic(auto, unfolding(crate::specs::Reading::cut_words))]
fn cut(w: u64, x: u64, y: u64, z: u64) -> [u16; 13]
    ensures { result ≡ cut_words w x y z }
{
    [
        ((w >> 24) % 0x8000) as u16,
        ((w >> 9) % 0x8000) as u16,
        (((w << 6) ^ (x >> 46)) % 0x8000) as u16,
        ((x >> 31) % 0x8000) as u16,
        ((x >> 16) % 0x8000) as u16,
        ((x >> 1) % 0x8000) as u16,
        (((x << 14) ^ (y >> 38)) % 0x8000) as u16,
        ((y >> 23) % 0x8000) as u16,
        ((y >> 8) % 0x8000) as u16,
        (((y << 7) ^ (z >> 45)) % 0x8000) as u16,
        ((z >> 30) % 0x8000) as u16,
        ((z >> 15) % 0x8000) as u16,
        (z % 0x8000) as u16,
    ]
}

// The first 25 octets in words; zeros where there are fewer. With all 25 no word is read by a call.
fn in_words(field: &[u8]) -> Words
    ensures { result ≡ field_words field.now }
{
    if field.len() < 25 {
        return Words {
            a: octets::word_at(field, 0),
            b: octets::word_at(field, 8),
            c: octets::word_at(field, 16),
            d: octets::at(field, 24) as u64,
        };
    }
    Words {
        a: octets::whole_word(field, 0),
        b: octets::whole_word(field, 8),
        c: octets::whole_word(field, 16),
        d: field[24] as u64,
    }
}

// The 13 rows of the first 25 octets, column 0 at bit 14; zeros where there are fewer.
pub fn rows(field: &[u8]) -> [u16; 13]
    ensures { result ≡ tabulate 13 (received_row field.now) }
{
    let y = turned(runs(in_words(field)));
    cut(group(y.a), group(y.b), group(y.c), group(y.d))
}
