// Octets at a place of a slice, read and written for every place: nothing is asked of a caller.
ghost use Rattle.std.specs.Prelude.{◌≡◌, cond, Option, None, Some, ◌+◌, ◌*◌, ◌-◌, ◌/◌, ◌%◌, ◌^◌, ◌++◌, min, ltb, length, get_or, drop};
ghost use Rattle.foundation.specs.Bits.{octet_bit, value_of, tabulate};
ghost use Rattle.foundation.specs.Octets.{put as put·octets};

// Octet i, 0 past the end.
pub fn at(octets: &[u8], i: usize) -> u8
    ensures { result ≡ get_or octets.now i 0 }
{
    octets.get(i).copied().unwrap_or(0)
}

// The octets from i on; none past the end.
pub fn rest(octets: &[u8], i: usize) -> &[u8]
    ensures { result.now ≡ drop i octets.now }
{
    octets.get(i..).unwrap_or(&[])
}

// The eight octets of a number, the highest first: std's, said in the terms of bits in which the codes speak, once for all that call it.
pub fn octets_of(x: u64) -> [u8; 8]
    ensures { result ≡ tabulate 8 (λ j. x / 2 ^ (56 - 8 * j) % 2 ^ 8) }
{
    x.to_be_bytes()
}

// The 64 bits from octet i on, where there are as many.
fn eight(octets: &[u8], i: usize) -> Option<u64>
    ensures { result ≡ cond (ltb (length octets.now) (i + 8)) None (Some (value_of (octet_bit octets.now) (8 * i) 64)) }
{
    let word = rest(octets, i).first_chunk::<8>()?;
    Some(u64::from_be_bytes(*word))
}

// The 64 bits from octet i on, where there are as many; else 0. It is short enough to stand where it is called.
pub fn whole_word(octets: &[u8], i: usize) -> u64
    ensures { result ≡ cond (ltb (length octets.now) (i + 8)) 0 (value_of (octet_bit octets.now) (8 * i) 64) }
{
    eight(octets, i).unwrap_or(0)
}

// The 64 bits from octet i on, of which there may be fewer; past the end they are zeros.
fn short_word(octets: &[u8], i: usize) -> u64
    ensures { result ≡ value_of (octet_bit octets.now) (8 * i) 64 }
{
    let short = rest(octets, i);
    u64::from_be_bytes([
        at(short, 0),
        at(short, 1),
        at(short, 2),
        at(short, 3),
        at(short, 4),
        at(short, 5),
        at(short, 6),
        at(short, 7),
    ])
}

// The 64 bits from octet i on; past the end they are zeros.
pub fn word_at(octets: &[u8], i: usize) -> u64
    ensures { result ≡ value_of (octet_bit octets.now) (8 * i) 64 }
{
    match eight(octets, i) {
        Some(word) => word,
        None => short_word(octets, i),
    }
}

// Octets written over those at a place, where they fit; else nothing changes. By a range: std says nothing of what get_mut lends but its
// length.
pub fn put(to: &mut [u8], at: usize, octets: &[u8])
    ensures { to.new ≡ put·octets to.old at octets.now }
{
    if at <= to.len() && octets.len() <= to.len() - at {
        to[at..at + octets.len()].copy_from_slice(octets);
    }
}

// Two parts in one array, where it has their size.
pub fn joined<const N: usize>(head: &[u8], tail: &[u8]) -> [u8; N]
    ensures { length head.now + length tail.now ≡ N → result ≡ head.now ++ tail.now }
{
    let mut both = [0u8; N];
    put(&mut both, 0, head);
    put(&mut both, head.len(), tail);
    both
}

// The shorter of two lengths. std says of `min` that it goes by the order of any type; this says it of numbers, once for all that call it.
pub fn shorter(a: usize, b: usize) -> usize
    ensures { result ≡ min a b }
{
    a.min(b)
}
