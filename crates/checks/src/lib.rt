// The checks of headers, blocks and messages, over any octets: eight octets at a time, ten at once, four at a time. What is left of the
// other two is taken in by a register of 32 bits, in whose high bits a generator of degree n stands without its highest power.
#![tactic(auto)]

ghost use Rattle.std.specs.Prelude.{◌≡◌, ◌+◌, ◌*◌, ◌/◌, ◌%◌, ◌≤◌, ◌<◌, length};
ghost use Rattle.foundation.specs.Bits.{octet_bit, value_of};
ghost use Rattle.polynomials.specs.Remainder.{remainder, check};
ghost use Rattle.folds.specs.Folds.{header_fourth, message_table};
ghost use Rattle.checks.specs.Checks.{header_generator, header_check, block_check, message_check, lowest_first, header_good, block_good, message_good};
ghost use Rattle.checks.specs.Claims.{HeaderCarries, BlockCarries, MessageCarries};
ghost use Rattle.checks.specs.Parts.{message_so_far};

const BLOCK: u32 = 0x2C80_0000;

const MESSAGE: u32 = 0x04C1_1DB7;

// Fewer than eight octets as a number, one by one: no array has their size.
fn front(octets: &[u8]) -> u64
    requires { length octets.now < 8 }
    ensures { result ≡ value_of (octet_bit octets.now) 0 (8 * length octets.now) }
{
    let mut w: u64 = 0;
    for octet in octets {
        w = 256 * w + *octet as u64;
    }
    w
}

// The remainder of the octets by the fourth power of the header's generator. Zeros in front add nothing, so that the first word may be
// short. By steps of eight: `as_rchunks` and `chunks_exact` were tried, and 510 octets took a twelfth longer.
fn header_words(octets: &[u8]) -> u64
    ensures { result ≡ remainder 64 header_fourth (octet_bit octets.now) (8 * length octets.now) }
{
    let first = octets.len() % 8;
    let mut w = front(&octets[..first]);
    for i in (first..octets.len()).step_by(8) {
        w = folds::header::take_word(w, foundation::octets::whole_word(octets, i));
    }
    w
}

// The remainder that the header's check is made of.
fn header_remainder(octets: &[u8]) -> u16
    ensures { result ≡ check 16 header_generator (octet_bit octets.now) (8 * length octets.now) }
{
    folds::header::check_of(header_words(octets))
}

// The header's check with any mask. Octets that carry it are found good.
pub fn header(mask: u16, octets: &[u8]) -> u16
    ensures { (result ≡ header_check mask octets.now) × HeaderCarries mask octets.now result }
{
    header_remainder(octets) ^ 0xFFFF ^ mask
}

// Whether the last two octets are the header's check of those before.
pub fn header_good(mask: u16, octets: &[u8]) -> bool
    ensures { result ≡ header_good mask octets.now }
{
    let Some((front, stored)) = octets.split_last_chunk::<2>() else {
        return false;
    };
    u16::from_be_bytes(*stored) == header(mask, front)
}

// The check of a block's data octets with the seven low bits of the serial. A block that carries it is found good.
pub fn block(serial: u8, octets: &[u8]) -> u16
    ensures { (result ≡ block_check serial octets.now) × BlockCarries serial octets.now result }
{
    if octets.len() == 10 {
        return folds::block::of_ten(serial, octets) ^ 0x1FF ^ 0x0F0;
    }
    let data = polynomials::check_of(BLOCK, octets);
    let all = polynomials::shifts(BLOCK, data ^ (((serial % 128) as u32) << 25), 7);
    ((all >> 23) as u16) ^ 0x1FF ^ 0x0F0
}

// Whether the nine bits behind the serial are the check of the block.
pub fn block_good(octets: &[u8]) -> bool
    ensures { result ≡ block_good octets.now }
{
    let Some((first, data)) = octets.split_first_chunk::<2>() else {
        return false;
    };
    let [serial, low] = *first;
    u16::from_be_bytes([serial % 2, low]) == block(serial / 2, data)
}

// The check of the pairs before the whole words: of none, or of one.
fn first_pair(table: &[u32], octets: &[u8]) -> u32
    requires { table.now ≡ message_table }
    ensures { result ≡ message_so_far octets.now (length octets.now / 2 * 2 % 4) }
{
    if octets.len() / 2 % 2 == 0 {
        return 0;
    }
    folds::message::times_word(table, u32::from_be_bytes([0, 0, octets[1], octets[0]]))
}

// The check of all pairs.
fn message_pairs(octets: &[u8]) -> u32
    ensures { result ≡ message_so_far octets.now (length octets.now / 2 * 2) }
{
    let table = folds::message::table();
    let even = octets.len() / 2 * 2;
    let mut r = first_pair(&table, octets);
    let (_, words) = octets[..even].as_rchunks::<4>();
    for word in words {
        let [a, b, c, d] = *word;
        r = folds::message::times_word(&table, r ^ u32::from_le_bytes([c, d, a, b]));
    }
    r
}

// The message's check. A last single octet stays where it is.
pub fn message(octets: &[u8]) -> u32
    ensures { result ≡ message_check octets.now }
{
    let r = message_pairs(octets);
    if octets.len() % 2 == 0 {
        return r;
    }
    polynomials::take_octet(MESSAGE, r, octets[octets.len() - 1])
}

// The four octets of the message's check, the lowest first. Octets that carry them are found good.
pub fn message_octets(octets: &[u8]) -> [u8; 4]
    ensures { (result ≡ lowest_first (message_check octets.now)) × MessageCarries octets.now result }
{
    message(octets).to_le_bytes()
}

// Whether the last four octets are the message's check of those before.
pub fn message_good(octets: &[u8]) -> bool
    ensures { result ≡ message_good octets.now }
{
    let Some((front, stored)) = octets.split_last_chunk::<4>() else {
        return false;
    };
    u32::from_le_bytes(*stored) == message(front)
}
