// A confirmed rate 1/2 block of 12 octets.
ghost use Rattle.std.specs.Prelude.{◌≡◌, ◌<◌, IfOk, length, drop};
ghost use Rattle.packets.specs.Blocks.{read_block, block_given, written_block, write_block, block_octets_given};
ghost use Rattle.packets.specs.BlockClaims.{BlockReadsBack};

use foundation::refusal::Refusal;

// The serial and the data octets.
#[derive(Clone, Copy, Debug, PartialEq, Eq)]
pub struct Block {
    pub serial: u8,
    pub octets: [u8; 10],
}

// The ten data octets of a block.
fn data_of(octets: &[u8]) -> [u8; 10]
    requires { length octets.now ≡ 12 }
    ensures { result ≡ drop 2 octets.now }
{
    let mut os = [0u8; 10];
    foundation::octets::put(&mut os, 0, &octets[2..12]);
    os
}

// Reads a block.
pub fn read(octets: &[u8]) -> Result<Block, Refusal>
    ensures { result ≡ block_given (read_block octets.now) }
{
    if octets.len() != 12 {
        return Err(Refusal::Size);
    }
    if !checks::block_good(octets) {
        return Err(Refusal::BlockCheck);
    }
    Ok(Block {
        serial: octets[0] / 2,
        octets: data_of(octets),
    })
}

// The octets of a block.
fn octets_of(serial: u8, octets: &[u8]) -> [u8; 12]
    requires { (serial < 128) × (length octets.now ≡ 10) }
    ensures { result ≡ written_block serial octets.now }
{
    let [high, low] = checks::block(serial, octets).to_be_bytes();
    let mut os = [0u8; 12];
    os[0] = 2 * serial + high;
    os[1] = low;
    foundation::octets::put(&mut os, 2, octets);
    os
}

// Writes a block of ten data octets, which reads back.
pub fn write(serial: u8, octets: &[u8]) -> Result<[u8; 12], Refusal>
    ensures { (result ≡ block_octets_given (write_block serial octets.now)) × BlockReadsBack serial octets.now (write_block serial octets.now) × IfOk result (λ os. BlockReadsBack serial octets.now (record { number = 0; octets = os })) }
{
    if octets.len() != 10 {
        return Err(Refusal::Size);
    }
    if 128 <= serial {
        return Err(Refusal::Unwritable);
    }
    Ok(octets_of(serial, octets))
}
