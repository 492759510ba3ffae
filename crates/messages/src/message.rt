// A message in blocks, and the headers before them.
ghost use Rattle.std.specs.Prelude.{◌≡◌};
ghost use Rattle.checks.specs.Checks.{message_check, lowest_first};
ghost use Rattle.packets.specs.Blocks.{block_octets_given};
ghost use Rattle.packets.specs.Headers.{write_header, header_octets_given};
ghost use Rattle.messages.specs.Messages.{size_of, size_given, padded, write_message_block, full_header, partial_header};
ghost use Rattle.messages.specs.Parts.{Ends, padded_header, octets_in};

use addresses::RadioAddress;
use foundation::refusal::Refusal;
use packets::header::{Common, Header};
use std::array;

// Data octets of a block, octets of a message check, the most blocks of a message and the most octets.
pub const BLOCK: usize = 10;

pub const CHECK: usize = 4;

pub const MOST_BLOCKS: usize = 63;

pub const MOST_OCTETS: usize = BLOCK * MOST_BLOCKS - CHECK;

// FSN of a confirmed message: 1000.
const FSN: u8 = 8;

// Who sends what to whom: SAP, N(S), destination and source.
#[derive(Clone, Copy, Debug, PartialEq, Eq)]
pub struct Delivery {
    pub sap: u8,
    pub ns: u8,
    pub destination: RadioAddress,
    pub source: RadioAddress,
}

// Number of blocks and pad of a message.
#[derive(Clone, Copy, Debug, PartialEq, Eq)]
pub struct Size {
    pub blocks: u8,
    pub pad: u8,
}

// Blocks and pad of a message of this many octets.
pub fn size_of(octets: usize) -> Result<Size, Refusal>
    ensures { result ≡ size_given (size_of octets) }
{
    if MOST_OCTETS < octets {
        return Err(Refusal::Unwritable);
    }
    let filled = octets + CHECK;
    let blocks = filled.div_ceil(BLOCK);
    Ok(Size {
        blocks: blocks as u8,
        pad: (BLOCK * blocks - filled) as u8,
    })
}

// ---- headers

// The header of an attempt with this pad, flag and count; the flag is the header's bit, a number as there.
fn attempt(pad: u8, d: Delivery, full: u8, count: u8) -> Result<[u8; 12], Refusal>
    ensures { result ≡ header_octets_given (write_header (padded_header pad d full count)) }
{
    let c = Common {
        group: 0,
        requested: 1,
        pad,
        sap: d.sap,
        destination: d.destination,
        source: d.source,
        full,
        blocks: count,
    };
    packets::header::write(Header::Confirmed(c, 0, d.ns, FSN))
}

// The header before a whole message.
pub fn full_header(octets: usize, d: Delivery) -> Result<[u8; 12], Refusal>
    ensures { result ≡ header_octets_given (full_header octets d) }
{
    let size = size_of(octets)?;
    attempt(size.pad, d, 1, size.blocks)
}

// The header before a repeat attempt with `count` of the message's blocks.
pub fn partial_header(octets: usize, d: Delivery, count: u8) -> Result<[u8; 12], Refusal>
    ensures { result ≡ header_octets_given (partial_header octets d count) }
{
    let size = size_of(octets)?;
    if count == 0 {
        return Err(Refusal::Unwritable);
    }
    if size.blocks < count {
        return Err(Refusal::Unwritable);
    }
    attempt(size.pad, d, 0, count)
}

// ---- blocks

// The octets of the message in block n, zeros past its end.
fn data_of(message: &[u8], n: u8) -> [u8; 10]
    ensures { result ≡ octets_in message.now n }
{
    array::from_fn(|i| foundation::octets::at(message, BLOCK * (n as usize) + i))
}

// The check of the padded message.
fn check_of(message: &[u8], end: usize) -> [u8; 4]
    requires { Ends message.now end }
    ensures { result ≡ lowest_first (message_check (padded message.now)) }
{
    let mut store = [0u8; MOST_OCTETS];
    foundation::octets::put(&mut store, 0, message);
    checks::message_octets(&store[..end])
}

// Block n of a message. Only the last one has octets of the message check.
pub fn block(message: &[u8], n: usize) -> Result<[u8; 12], Refusal>
    ensures { result ≡ block_octets_given (write_message_block message.now n) }
{
    let size = size_of(message.len())?;
    let blocks = size.blocks as usize;
    if blocks <= n {
        return Err(Refusal::Unwritable);
    }
    let serial = n as u8;
    let mut os = data_of(message, serial);
    if n + 1 < blocks {
        return packets::block::write(serial, &os);
    }
    let check = check_of(message, BLOCK * blocks - CHECK);
    foundation::octets::put(&mut os, BLOCK - CHECK, &check);
    packets::block::write(serial, &os)
}
