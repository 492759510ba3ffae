// A burst of 33 octets: block field, slot type and sync.
ghost use Rattle.std.specs.Prelude.{◌≡◌, length, IfOk, ◌+◌, ◌*◌, ◌%◌, ◌^◌, ◌<◌};
ghost use Rattle.foundation.specs.Bits.{octet_bit, value_of, octets};
ghost use Rattle.codes.specs.SlotWord.{slot_given};
ghost use Rattle.codes.specs.Field.{field_given};
ghost use Rattle.bursts.specs.Bursts.{kind_of, slot_bits, field_of, burst_slot, burst_field, read_burst, burst_given, sync_word, burst_bits, written_burst, write_burst, burst_octets_given};
ghost use Rattle.bursts.specs.BurstClaims.{BurstComesBack};
ghost use Rattle.bursts.specs.Parts.{field_run};

use foundation::refusal::Refusal;

// What a burst carries, by the four bits of its data type.
#[derive(Clone, Copy, Debug, PartialEq, Eq)]
pub enum Kind {
    Header,
    Block,
    Other,
}

impl From<u8> for Kind {
    ghost from_gives = { λ datatype kind. kind ≡ kind_of datatype };

    fn from(datatype: u8) -> Kind {
        match datatype {
            6 => Kind::Header,
            7 => Kind::Block,
            _ => Kind::Other,
        }
    }
}

// The sync that the writer puts into a burst.
#[derive(Clone, Copy, Debug, PartialEq, Eq)]
pub enum Sync {
    Base,
    Mobile,
}

// What is read from a burst. The data type stays a number: it reads back as it was written.
#[derive(Clone, Copy, Debug, PartialEq, Eq)]
pub struct Burst {
    pub colour: u8,
    pub datatype: u8,
    pub info: [u8; 12],
}

// The 20 bits of the slot type: 6 of octet 12, 4 of octet 13, 4 of octet 19, 6 of octet 20.
fn slot_bits(b: &[u8]) -> u32
    requires { length b.now ≡ 33 }
    ensures { result ≡ slot_bits b.now }
{
    let first = u32::from(b[12] % 64) * 16 + u32::from(b[13] / 16);
    let second = u32::from(b[19] % 16) * 64 + u32::from(b[20] / 4);
    first * 1024 + second
}

// The slot type of a burst. Octets of another size have none.
pub fn slot_type(burst: &[u8]) -> Result<u8, Refusal>
    ensures { result ≡ slot_given (burst_slot burst.now) }
{
    if burst.len() != 33 {
        return Err(Refusal::Size);
    }
    codes::slot_type::read(slot_bits(burst))
}

// Bits 64 to 127 of the block field: 34 bits before the slot type and the sync, and 30 behind them.
fn field_across(b: &[u8]) -> u64
    ensures { result ≡ value_of (field_run b.now) 64 64 }
{
    let before = foundation::octets::word_at(b, 8);
    let behind = foundation::octets::word_at(b, 20);
    ((before >> 30) << 30) + (behind >> 28) % 0x4000_0000
}

// The 64 bits of a burst from the middle of octet k on.
fn word_across(b: &[u8], k: usize) -> u64
    requires { k < 2 ^ 32 }
    ensures { result ≡ value_of (octet_bit b.now) (8 * k + 4) 64 }
{
    let word = foundation::octets::word_at(b, k);
    let next = foundation::octets::at(b, k + 8);
    (word << 4) + (next / 16) as u64
}

// The block field in 25 octets; zeros where there are fewer octets than a burst has.
fn field_octets(b: &[u8]) -> [u8; 25]
    ensures { result ≡ field_of b.now }
{
    let x = foundation::octets::word_at(b, 0);
    let y = field_across(b);
    let z = word_across(b, 24);
    let last = word_across(b, 32);
    interleaver::writing::field_of(x, y, z, last)
}

// What the block field of a burst reads as.
pub fn field(burst: &[u8]) -> Result<[u8; 12], Refusal>
    ensures { result ≡ field_given (burst_field burst.now) }
{
    if burst.len() == 33 {
        codes::block_field::read(&field_octets(burst))
    } else {
        Err(Refusal::Size)
    }
}

// Reads a burst. The sync is not tested.
pub fn read(burst: &[u8]) -> Result<Burst, Refusal>
    ensures { result ≡ burst_given (read_burst burst.now) }
{
    let slot = slot_type(burst)?;
    let datatype = slot % 16;
    if Kind::from(datatype) == Kind::Other {
        return Err(Refusal::DataType);
    }
    let info = field(burst)?;
    Ok(Burst {
        colour: slot / 16,
        datatype,
        info,
    })
}

// ---- writing

// The 48 bits of a sync.
fn sync_bits(sync: Sync) -> u64
    ensures { result ≡ sync_word sync }
{
    match sync {
        Sync::Base => 0xDFF5_7D75_DF5D,
        Sync::Mobile => 0xD5D7_F77F_D757,
    }
}

// Octet j of a burst with this block field, slot type and sync.
fn burst_octet(f: &[u8], slot: u64, sync: u64, j: usize) -> u8
    requires { (length f.now ≡ 25) × (j < 33) }
    ensures { result ≡ value_of (burst_bits f.now slot sync) (8 * j) 8 }
{
    match j {
        0..=11 => f[j],
        12 => f[12] / 64 * 64 + ((slot >> 14) % 64) as u8,
        13 => ((slot >> 10) % 16 * 16 + (sync >> 44) % 16) as u8,
        14..=18 => ((sync >> (148 - 8 * j)) % 256) as u8,
        19 => (sync % 16 * 16 + (slot >> 6) % 16) as u8,
        20 => (slot % 64 * 4) as u8 + f[12] / 16 % 4,
        _ => f[j - 9] % 16 * 16 + f[j - 8] / 16,
    }
}

// The 33 octets of a burst with this block field, slot type and sync.
fn burst_octets(f: &[u8], slot: u64, sync: u64) -> [u8; 33]
    requires { length f.now ≡ 25 }
    ensures { result ≡ octets 33 (burst_bits f.now slot sync) }
{
    let mut b = [0u8; 33];
    // By number: array::from_fn was tried, and the proof that its closure keeps what it holds didn't close.
    for j in 0..33 {
        b[j] = burst_octet(f, slot, sync, j);
    }
    b
}

// The octets of a burst for a colour code and a data type of four bits each. The data type stays a number, as in `write`.
fn written(colour: u8, datatype: u8, info: [u8; 12], sync: Sync) -> [u8; 33]
    requires { (colour < 16) × (datatype < 16) }
    ensures { result ≡ written_burst colour datatype info sync }
{
    let f = codes::block_field::write(info);
    let slot = codes::slot_type::write(16 * colour + datatype) as u64;
    burst_octets(&f, slot, sync_bits(sync))
}

// Writes a burst. With wrong bits that the codes put right it comes back. The data type stays a number: any is taken, and refused if it is
// neither 6 nor 7. It stands beside colour and octets, not in a Burst, as C gives the three.
pub fn write(colour: u8, datatype: u8, info: [u8; 12], sync: Sync) -> Result<[u8; 33], Refusal>
    ensures gives { result ≡ burst_octets_given (write_burst colour datatype info sync) }
    ensures comes_back { IfOk result (λ octets. BurstComesBack colour datatype info octets) }
{
    if 16 <= colour || Kind::from(datatype) == Kind::Other {
        return Err(Refusal::Unwritable);
    }
    Ok(written(colour, datatype, info, sync))
}
