// Responses to an attempt.
ghost use Rattle.std.specs.Prelude.{◌≡◌, IfOk, length, take};
ghost use Rattle.messages.specs.Responses.{reply_code, response_header, sack_data, write_response, response_given, written_where, read_response, fields_given};
ghost use Rattle.messages.specs.ResponseClaims.{ResponseReadsBack};
ghost use Rattle.messages.specs.Parts.{block_given, fields_with, answer_beside, response_by};

use crate::message::Delivery;
use addresses::RadioAddress;
use foundation::refusal::Refusal;
use packets::header::{Common, Header};

// Class of a SACK.
const SACK: u8 = 2;

// ACK, NACK or SACK.
#[derive(Clone, Copy, Debug, PartialEq, Eq)]
pub enum Reply {
    Ack,
    Nack,
    Sack,
}

// A response's header, and the data block of a SACK.
#[derive(Clone, Copy, Debug, PartialEq, Eq)]
pub struct ResponseOctets {
    pub header: [u8; 12],
    pub block: Option<[u8; 12]>,
}

// The fields of a response, and the flags of a SACK. Class, type (`kind`) and status stay numbers: the bits as they were sent, any of them.
#[derive(Clone, Copy, Debug, PartialEq, Eq)]
pub struct ResponseFields {
    pub class: u8,
    pub kind: u8,
    pub status: u8,
    pub sap: u8,
    pub destination: RadioAddress,
    pub source: RadioAddress,
    pub flags: [u8; 8],
}

// ---- writing

// How many data blocks follow the header.
fn count_of(reply: Reply) -> u8
    ensures { result ≡ (reply_code reply).2 }
{
    match reply {
        Reply::Ack => 0,
        Reply::Nack => 0,
        Reply::Sack => 1,
    }
}

// The header, with class and type of the reply.
fn header_of(reply: Reply, d: Delivery) -> Header
    ensures { result ≡ response_header reply d }
{
    let c = Common {
        group: 0,
        requested: 0,
        pad: 0,
        sap: d.sap,
        destination: d.destination,
        source: d.source,
        full: 0,
        blocks: count_of(reply),
    };
    match reply {
        Reply::Ack => Header::Response(c, 0, 1, d.ns),
        Reply::Nack => Header::Response(c, 1, 1, d.ns),
        Reply::Sack => Header::Response(c, SACK, 0, d.ns),
    }
}

// The data block of a SACK. Its flags are octets here and below: those of a block as it is sent, whatever set them.
fn sack_data(flags: [u8; 8]) -> [u8; 12]
    ensures { result ≡ sack_data flags }
{
    foundation::octets::joined(&flags, &checks::message_octets(&flags))
}

// The data block, if there is one.
fn block_of(reply: Reply, flags: [u8; 8]) -> Option<[u8; 12]>
    ensures { result ≡ block_given reply flags }
{
    match reply {
        Reply::Ack => None,
        Reply::Nack => None,
        Reply::Sack => Some(sack_data(flags)),
    }
}

// Writes a response, which reads back; the flags are those of a SACK. Inlined, as `packets::header::write` is and why.
#[inline(always)]
pub fn write(reply: Reply, d: Delivery, flags: [u8; 8]) -> Result<ResponseOctets, Refusal>
    ensures { (result ≡ response_given (write_response reply d flags)) × ResponseReadsBack reply d flags (write_response reply d flags) × IfOk result (λ given. ResponseReadsBack reply d flags (written_where given)) }
{
    let header = packets::header::write(header_of(reply, d))?;
    let block = block_of(reply, flags);
    Ok(ResponseOctets { header, block })
}

// ---- reading

// The fields as they were sent: numbers.
#[tactic(auto, unfolding(crate::specs::Parts::fields_with))]
fn fields_with(c: Common, class: u8, kind: u8, status: u8, flags: [u8; 8]) -> ResponseFields
    ensures { result ≡ fields_with c class kind status flags }
{
    ResponseFields {
        class,
        kind,
        status,
        sap: c.sap,
        destination: c.destination,
        source: c.source,
        flags,
    }
}

// The flags in the data block of a SACK.
fn flags_of(block: &[u8]) -> [u8; 8]
    requires { length block.now ≡ 12 }
    ensures { result ≡ take 8 block.now }
{
    let mut flags = [0u8; 8];
    foundation::octets::put(&mut flags, 0, &block[..8]);
    flags
}

// What the fields of a response's header and its data block say; only the data block of a SACK is looked at. Class and type stay numbers,
// as they were sent.
fn read_beside(
    c: Common,
    class: u8,
    kind: u8,
    status: u8,
    block: &[u8],
) -> Result<ResponseFields, Refusal>
    ensures { result ≡ fields_given (answer_beside c class kind status block.now) }
{
    if class != SACK {
        return Ok(fields_with(c, class, kind, status, [0u8; 8]));
    }
    if block.len() != 12 {
        return Err(Refusal::Size);
    }
    if !checks::message_good(block) {
        return Err(Refusal::BlockCheck);
    }
    Ok(fields_with(c, class, kind, status, flags_of(block)))
}

// Reads a response: its header, and for a SACK its data block.
pub fn read(header: &[u8], block: &[u8]) -> Result<ResponseFields, Refusal>
    ensures { result ≡ fields_given (read_response header.now block.now) }
{
    match packets::header::read(header)? {
        Header::Response(c, class, kind, status) => read_beside(c, class, kind, status, block),
        Header::Unconfirmed(_, _) => Err(Refusal::Format),
        Header::Confirmed(_, _, _, _) => Err(Refusal::Format),
    }
}
