// Readers, for C.
ghost use Rattle.std.specs.Prelude.{◌≡◌, ◌∷◌, ◌++◌};
ghost use Rattle.addresses.specs.Octets.{three_octets};
ghost use Rattle.layouts.specs.Layouts.{label_layout};
ghost use Rattle.layouts.specs.Lent.{Gives};
ghost use Rattle.capi.specs.Answers.{datagram_read, burst_read, header_read, block_read, response_read};

use bursts::burst::Burst;
use datagrams::Datagram;
use foundation::octets::joined;
use layouts::fields::{header_octets, label_octets};
use layouts::lent::give_result;
use messages::response::{self, ResponseFields};
use packets::block::Block;

fn datagram_octets(d: Datagram) -> [u8; 31]
    ensures { result ≡ label_layout d.labels ++ d.colour ∷ d.datatype ∷ d.info }
{
    joined(&label_octets(d.labels, d.colour, d.datatype), &d.info)
}

fn burst_octets(b: Burst) -> [u8; 14]
    ensures { result ≡ b.colour ∷ b.datatype ∷ b.info }
{
    joined(&[b.colour, b.datatype], &b.info)
}

fn block_octets(b: Block) -> [u8; 11]
    ensures { result ≡ b.serial ∷ b.octets }
{
    joined(&[b.serial], &b.octets)
}

fn response_octets(a: ResponseFields) -> [u8; 18]
    ensures { result ≡ a.class ∷ a.kind ∷ a.status ∷ a.sap ∷ three_octets a.destination.0 ++ three_octets a.source.0 ++ a.flags }
{
    let to = a.destination.octets();
    let from = a.source.octets();
    let head = [
        a.class, a.kind, a.status, a.sap, to[0], to[1], to[2], from[0], from[1], from[2],
    ];
    joined(&head, &a.flags)
}

// A datagram.
#[unsafe(no_mangle)]
pub extern "C" fn kirruskabe_read_datagram(datagram: &[u8], out: &mut [u8]) -> u8
    ensures { Gives 31 (datagram_read datagram.now) out.old result out.new }
{
    give_result(out, datagrams::read(datagram).map(datagram_octets))
}

// A burst.
#[unsafe(no_mangle)]
pub extern "C" fn kirruskabe_read_burst(burst: &[u8], out: &mut [u8]) -> u8
    ensures { Gives 14 (burst_read burst.now) out.old result out.new }
{
    give_result(out, bursts::burst::read(burst).map(burst_octets))
}

// A header.
#[unsafe(no_mangle)]
pub extern "C" fn kirruskabe_read_header(header: &[u8], out: &mut [u8]) -> u8
    ensures { Gives 16 (header_read header.now) out.old result out.new }
{
    give_result(out, packets::header::read(header).map(header_octets))
}

// A block.
#[unsafe(no_mangle)]
pub extern "C" fn kirruskabe_read_block(block: &[u8], out: &mut [u8]) -> u8
    ensures { Gives 11 (block_read block.now) out.old result out.new }
{
    give_result(out, packets::block::read(block).map(block_octets))
}

// A response: its header, and for a SACK its data block.
#[unsafe(no_mangle)]
pub extern "C" fn kirruskabe_read_response(header: &[u8], block: &[u8], out: &mut [u8]) -> u8
    ensures { Gives 18 (response_read header.now block.now) out.old result out.new }
{
    give_result(out, response::read(header, block).map(response_octets))
}
