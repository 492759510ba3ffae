// Writers, for C.
ghost use Rattle.std.specs.Prelude.{◌≡◌, [], ◌∷◌, ◌++◌, replicate};
ghost use Rattle.std.specs.Option.{unwrap_or};
ghost use Rattle.foundation.specs.Refusals.{outcome};
ghost use Rattle.datagrams.specs.Datagrams.{next_sequence};
ghost use Rattle.packets.specs.Headers.{header_given};
ghost use Rattle.layouts.specs.Lent.{Gives};
ghost use Rattle.layouts.specs.Layouts.{common_from, header_from, labels_from};
ghost use Rattle.capi.specs.Answers.{message_size, header_before, header_again, message_block, header_written, fields_written, block_written, response_written, burst_written, datagram_written};

use addresses::{RepeaterNumber, address_at, number_at};
use datagrams::Labels;
use foundation::octets::{at, joined};
use foundation::refusal::Refusal;
use layouts::lent::give_result;
use messages::message::Size;
use messages::response::{self, ResponseOctets};
use packets::header::{Common, Header};

// ---- messages

fn size_octets(size: Size) -> [u8; 2]
    ensures { result ≡ size.blocks ∷ size.pad ∷ [] }
{
    [size.blocks, size.pad]
}

// Blocks and pad of a message.
#[unsafe(no_mangle)]
pub extern "C" fn kirruskabe_message_size(octets: usize, out: &mut [u8]) -> u8
    ensures { Gives 2 (message_size octets) out.old result out.new }
{
    give_result(out, messages::message::size_of(octets).map(size_octets))
}

// The header before a whole message.
#[unsafe(no_mangle)]
pub extern "C" fn kirruskabe_full_header(
    octets: usize,
    sap: u8,
    ns: u8,
    destination: u32,
    source: u32,
    out: &mut [u8],
) -> u8
    ensures { Gives 12 (header_before octets sap ns destination source) out.old result out.new }
{
    let d = layouts::fields::delivery(sap, ns, destination, source);
    give_result(out, messages::message::full_header(octets, d))
}

// The header before a repeat attempt with `count` of the message's blocks.
#[unsafe(no_mangle)]
pub extern "C" fn kirruskabe_partial_header(
    octets: usize,
    count: u8,
    sap: u8,
    ns: u8,
    destination: u32,
    source: u32,
    out: &mut [u8],
) -> u8
    ensures { Gives 12 (header_again octets count sap ns destination source) out.old result out.new }
{
    let d = layouts::fields::delivery(sap, ns, destination, source);
    give_result(out, messages::message::partial_header(octets, d, count))
}

// Block n of a message.
#[unsafe(no_mangle)]
pub extern "C" fn kirruskabe_message_block(message: &[u8], n: usize, out: &mut [u8]) -> u8
    ensures { Gives 12 (message_block message.now n) out.old result out.new }
{
    give_result(out, messages::message::block(message, n))
}

// ---- headers, blocks and responses

// The fields that all formats have, at C's places. No From: the places are C's alone.
fn common_from(f: &[u8]) -> Common
    ensures { result ≡ common_from f.now }
{
    Common {
        group: at(f, 1),
        requested: at(f, 2),
        pad: at(f, 3),
        sap: at(f, 4),
        destination: address_at(f, 5),
        source: address_at(f, 8),
        full: at(f, 11),
        blocks: at(f, 12),
    }
}

// The header of the fields. The format is C's number.
fn header_from(f: &[u8]) -> Result<Header, Refusal>
    ensures { result ≡ header_given (header_from f.now) }
{
    packets::header::for_format(at(f, 0), common_from(f), at(f, 13), at(f, 14), at(f, 15))
}

// The octets of a header by its fields.
fn header_written(f: &[u8]) -> Result<[u8; 12], Refusal>
    ensures { result ≡ outcome (header_written (header_from f.now)).0 (header_written (header_from f.now)).1 }
{
    packets::header::write(header_from(f)?)
}

// A header by its fields.
#[unsafe(no_mangle)]
pub extern "C" fn kirruskabe_write_header(fields: &[u8], out: &mut [u8]) -> u8
    ensures { Gives 12 (fields_written fields.now) out.old result out.new }
{
    if fields.len() != 16 {
        return crate::SIZE;
    }
    give_result(out, header_written(fields))
}

// A block of ten data octets.
#[unsafe(no_mangle)]
pub extern "C" fn kirruskabe_write_block(serial: u8, octets: &[u8], out: &mut [u8]) -> u8
    ensures { Gives 12 (block_written serial octets.now) out.old result out.new }
{
    give_result(out, packets::block::write(serial, octets))
}

// A header, and a data block or zeros.
fn header_and_block(r: ResponseOctets) -> [u8; 24]
    ensures { result ≡ r.header ++ unwrap_or r.block (replicate 12 0) }
{
    joined(&r.header, &r.block.unwrap_or([0u8; 12]))
}

// A response; the flags are those of a SACK. The reply is C's number.
#[unsafe(no_mangle)]
pub extern "C" fn kirruskabe_write_response(
    reply: u8,
    sap: u8,
    ns: u8,
    destination: u32,
    source: u32,
    flags: &[u8],
    out: &mut [u8],
) -> u8
    ensures { Gives 24 (response_written reply sap ns destination source flags.now) out.old result out.new }
{
    let Some(flags) = flags.as_array::<8>() else {
        return crate::SIZE;
    };
    if 2 < reply {
        return give_result::<24>(out, Err(Refusal::Unwritable));
    }
    let kind = layouts::fields::reply_of(reply);
    let d = layouts::fields::delivery(sap, ns, destination, source);
    give_result(out, response::write(kind, d, *flags).map(header_and_block))
}

// ---- bursts and datagrams

// A burst. Data type and sync are C's numbers.
#[unsafe(no_mangle)]
pub extern "C" fn kirruskabe_write_burst(
    colour: u8,
    datatype: u8,
    info: &[u8],
    sync: u8,
    out: &mut [u8],
) -> u8
    ensures { Gives 33 (burst_written colour datatype info.now sync) out.old result out.new }
{
    let Some(info) = info.as_array::<12>() else {
        return crate::SIZE;
    };
    if 1 < sync {
        return give_result::<33>(out, Err(Refusal::Unwritable));
    }
    let s = layouts::fields::sync_of(sync);
    give_result(out, bursts::burst::write(colour, datatype, *info, s))
}

// Labels, at C's places. No From, as above.
fn labels_from(f: &[u8]) -> Labels
    ensures { result ≡ labels_from f.now }
{
    Labels {
        sequence: at(f, 0),
        source: address_at(f, 1),
        target: address_at(f, 4),
        repeater: RepeaterNumber(number_at(f, 7)),
        timeslot: at(f, 11),
        call: at(f, 12),
        stream: number_at(f, 13),
    }
}

// A datagram with its burst. Data type and sync are C's numbers.
#[unsafe(no_mangle)]
pub extern "C" fn kirruskabe_write_datagram(
    labels: &[u8],
    colour: u8,
    datatype: u8,
    info: &[u8],
    sync: u8,
    out: &mut [u8],
) -> u8
    ensures { Gives 53 (datagram_written labels.now colour datatype info.now sync) out.old result out.new }
{
    if labels.len() != 17 {
        return crate::SIZE;
    }
    let Some(info) = info.as_array::<12>() else {
        return crate::SIZE;
    };
    if 1 < sync {
        return give_result::<53>(out, Err(Refusal::Unwritable));
    }
    let l = labels_from(labels);
    let s = layouts::fields::sync_of(sync);
    give_result(out, datagrams::write(l, colour, datatype, *info, s))
}

// The sequence counter of the next datagram.
#[unsafe(no_mangle)]
pub extern "C" fn kirruskabe_next_sequence(sequence: u8) -> u8
    ensures { result ≡ next_sequence sequence }
{
    datagrams::next_sequence(sequence)
}
