// Headers, blocks, messages and responses, written and read.
ghost use Rattle.report.specs.Counted.{MoreCases};

use crate::{delivery, number_of};
use messages::message::Delivery;
use messages::response::{Reply, ResponseOctets};
use messages::{message, response};
use packets::{block, header};
use report::Report;
use std::io::Write;

// The response to it goes the other way.
fn back() -> Delivery {
    let d = delivery();
    Delivery {
        destination: d.source,
        source: d.destination,
        ..d
    }
}

// 256 times the number of blocks and the pad, or the number of the refusal: a case is a line with one number.
fn sized(octets: usize) -> u32 {
    match message::size_of(octets) {
        Ok(size) => (u32::from(size.blocks) << 8) | u32::from(size.pad),
        Err(refusal) => u32::from(refusal.number()),
    }
}

fn size<W: Write>(report: &mut Report<W>, text: &[u8], octets: usize, expected: u32)
    ensures { MoreCases 1 report.old.tally report.new.tally }
{
    report.number(
        b"blocks and pad of a message, octets ",
        text,
        4,
        sized(octets),
        expected,
    );
}

fn sizes<W: Write>(report: &mut Report<W>)
    ensures { MoreCases 3 report.old.tally report.new.tally }
{
    size(report, b"0", 0, 0x0106);
    size(report, b"6", 6, 0x0100);
    size(report, b"7", 7, 0x0209);
}

fn largest_sizes<W: Write>(report: &mut Report<W>)
    ensures { MoreCases 2 report.old.tally report.new.tally }
{
    size(report, b"626", 626, 0x3F00);
    size(report, b"627, number", 627, 16);
}

fn block_of<W: Write>(report: &mut Report<W>, text: &[u8], n: usize, expected: &[u8])
    ensures { MoreCases 1 report.old.tally report.new.tally }
{
    let octets = message::block(b"TARE -12.5 mm", n).unwrap_or([0u8; 12]);
    report.octets(b"TARE -12.5 mm, ", text, &octets, expected);
}

// The message of 13 octets in two blocks, with the headers of a whole and of a repeat attempt.
fn message_octets<W: Write>(report: &mut Report<W>)
    ensures { MoreCases 4 report.old.tally report.new.tally }
{
    let full = message::full_header(13, delivery()).unwrap_or([0u8; 12]);
    let partial = message::partial_header(13, delivery(), 1).unwrap_or([0u8; 12]);
    report.octets(
        b"TARE -12.5 mm, ",
        b"header",
        &full,
        b"\x43\x43\x00\x21\x04\x1a\x0b\x0c\x82\x58\xdd\xc0",
    );
    report.octets(
        b"TARE -12.5 mm, ",
        b"header of a repeat of one block",
        &partial,
        b"\x43\x43\x00\x21\x04\x1a\x0b\x0c\x01\x58\x93\x0b",
    );
    block_of(
        report,
        b"block 0",
        0,
        b"\x01\xcb\x54\x41\x52\x45\x20\x2d\x31\x32\x2e\x35",
    );
    block_of(
        report,
        b"block 1",
        1,
        b"\x02\x6d\x20\x6d\x6d\x00\x00\x00\x43\xf7\x1f\x19",
    );
}

fn read_header<W: Write>(report: &mut Report<W>, text: &[u8], octets: &[u8], expected: u32)
    ensures { MoreCases 1 report.old.tally report.new.tally }
{
    report.number(
        b"reading a header, ",
        text,
        1,
        number_of(header::read(octets)),
        expected,
    );
}

fn headers<W: Write>(report: &mut Report<W>)
    ensures { MoreCases 2 report.old.tally report.new.tally }
{
    let good = b"\x43\x43\x00\x21\x04\x1a\x0b\x0c\x82\x58\xdd\xc0";
    let reserved = b"\x63\x43\x00\x21\x04\x1a\x0b\x0c\x82\x58\xe4\xcd";
    read_header(report, b"as written, number", good, 0);
    read_header(report, b"reserved bit 1, number", reserved, 0);
}

fn refused_headers<W: Write>(report: &mut Report<W>)
    ensures { MoreCases 3 report.old.tally report.new.tally }
{
    let format = b"\x44\x43\x00\x21\x04\x1a\x0b\x0c\x82\x58\xc1\x3a";
    let check = b"\x43\x43\x00\x21\x04\x1a\x0b\x0c\x82\x58\xdd\xc1";
    read_header(report, b"format 4, number", format, 9);
    read_header(report, b"another check, number", check, 8);
    read_header(report, b"11 octets, number", &[0u8; 11], 1);
}

fn read_block<W: Write>(report: &mut Report<W>, text: &[u8], octets: &[u8], expected: u32)
    ensures { MoreCases 1 report.old.tally report.new.tally }
{
    report.number(
        b"reading a block, ",
        text,
        1,
        number_of(block::read(octets)),
        expected,
    );
}

fn write_block<W: Write>(
    report: &mut Report<W>,
    text: &[u8],
    serial: u8,
    octets: &[u8],
    expected: u32,
)
    ensures { MoreCases 1 report.old.tally report.new.tally }
{
    report.number(
        b"writing a block, ",
        text,
        2,
        number_of(block::write(serial, octets)),
        expected,
    );
}

fn read_blocks<W: Write>(report: &mut Report<W>)
    ensures { MoreCases 3 report.old.tally report.new.tally }
{
    let good = b"\x01\xcb\x54\x41\x52\x45\x20\x2d\x31\x32\x2e\x35";
    let bad = b"\x01\xcb\x54\x41\x52\x45\x20\x2d\x31\x32\x2e\x36";
    read_block(report, b"as written, number", good, 0);
    read_block(report, b"another octet, number", bad, 13);
    read_block(report, b"13 octets, number", &[0u8; 13], 1);
}

fn written_blocks<W: Write>(report: &mut Report<W>)
    ensures { MoreCases 3 report.old.tally report.new.tally }
{
    write_block(report, b"serial 127, number", 127, &[0u8; 10], 0);
    write_block(report, b"serial 128, number", 128, &[0u8; 10], 16);
    write_block(report, b"9 octets, number", 0, &[0u8; 9], 1);
}

fn flags() -> [u8; 8] {
    *b"\xfd\xff\xff\xff\xff\xff\xff\xff"
}

// What is written, or zeros.
fn written(kind: Reply) -> ResponseOctets {
    response::write(kind, back(), flags()).unwrap_or(ResponseOctets {
        header: [0u8; 12],
        block: None,
    })
}

fn reply<W: Write>(report: &mut Report<W>, text: &[u8], kind: Reply, expected: &[u8])
    ensures { MoreCases 1 report.old.tally report.new.tally }
{
    let octets = written(kind).header;
    report.octets(b"response, N(S) 5, ", text, &octets, expected);
}

fn replies<W: Write>(report: &mut Report<W>)
    ensures { MoreCases 3 report.old.tally report.new.tally }
{
    reply(
        report,
        b"ACK",
        Reply::Ack,
        b"\x01\x40\x1a\x0b\x0c\x00\x21\x04\x00\x0d\xa3\x3c",
    );
    reply(
        report,
        b"NACK",
        Reply::Nack,
        b"\x01\x40\x1a\x0b\x0c\x00\x21\x04\x00\x4d\xeb\xf8",
    );
    reply(
        report,
        b"SACK",
        Reply::Sack,
        b"\x01\x40\x1a\x0b\x0c\x00\x21\x04\x01\x85\x80\x8d",
    );
}

fn sack_block<W: Write>(report: &mut Report<W>)
    ensures { MoreCases 1 report.old.tally report.new.tally }
{
    let data = written(Reply::Sack).block.unwrap_or([0u8; 12]);
    report.octets(
        b"data block of this SACK, ",
        b"block 1 of 3 missing",
        &data,
        b"\xfd\xff\xff\xff\xff\xff\xff\xff\x00\xb6\xae\x30",
    );
}

fn heard<W: Write>(report: &mut Report<W>, text: &[u8], header: &[u8], data: &[u8], expected: u32)
    ensures { MoreCases 1 report.old.tally report.new.tally }
{
    report.number(
        b"reading a response, ",
        text,
        1,
        number_of(response::read(header, data)),
        expected,
    );
}

fn readings<W: Write>(report: &mut Report<W>)
    ensures { MoreCases 2 report.old.tally report.new.tally }
{
    let ack = b"\x01\x40\x1a\x0b\x0c\x00\x21\x04\x00\x0d\xa3\x3c";
    let sack = b"\x01\x40\x1a\x0b\x0c\x00\x21\x04\x01\x85\x80\x8d";
    let data = b"\xfd\xff\xff\xff\xff\xff\xff\xff\x00\xb6\xae\x30";
    let found = match response::read(sack, data) {
        Ok(fields) => fields.flags,
        Err(_) => [0u8; 8],
    };
    report.octets(
        b"reading a response, ",
        b"flags of the SACK",
        &found,
        &flags(),
    );
    heard(report, b"ACK and no data, number", ack, b"", 0);
}

fn refused_readings<W: Write>(report: &mut Report<W>)
    ensures { MoreCases 3 report.old.tally report.new.tally }
{
    let sack = b"\x01\x40\x1a\x0b\x0c\x00\x21\x04\x01\x85\x80\x8d";
    let other = b"\xfd\xff\xff\xff\xff\xff\xff\xff\x00\xb6\xae\x31";
    heard(report, b"SACK and no data, number", sack, b"", 1);
    heard(report, b"SACK with another check, number", sack, other, 13);
    heard(
        report,
        b"a confirmed header, number",
        b"\x43\x43\x00\x21\x04\x1a\x0b\x0c\x82\x58\xdd\xc0",
        b"",
        9,
    );
}

fn messages<W: Write>(report: &mut Report<W>)
    ensures { MoreCases 9 report.old.tally report.new.tally }
{
    sizes(report);
    largest_sizes(report);
    message_octets(report);
}

fn headers_and_blocks<W: Write>(report: &mut Report<W>)
    ensures { MoreCases 11 report.old.tally report.new.tally }
{
    headers(report);
    refused_headers(report);
    read_blocks(report);
    written_blocks(report);
}

fn responses<W: Write>(report: &mut Report<W>)
    ensures { MoreCases 9 report.old.tally report.new.tally }
{
    replies(report);
    sack_block(report);
    readings(report);
    refused_readings(report);
}

pub fn cases<W: Write>(report: &mut Report<W>)
    ensures { MoreCases 29 report.old.tally report.new.tally }
{
    messages(report);
    headers_and_blocks(report);
    responses(report);
}
