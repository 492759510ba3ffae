// Bursts and datagrams, written and read. The information is the header of packet_cases.
ghost use Rattle.report.specs.Counted.{MoreCases};

use crate::number_of;
use addresses::{RadioAddress, RepeaterNumber};
use bursts::burst;
use bursts::burst::Sync;
use datagrams::Labels;
use report::Report;
use std::io::Write;

fn info() -> [u8; 12] {
    *b"\x43\x43\x00\x21\x04\x1a\x0b\x0c\x82\x58\xdd\xc0"
}

// A burst of colour code 1 and data type 6 with that information.
fn whole() -> [u8; 33] {
    *b"\x02\x59\x29\xbb\x1d\x37\x14\x8a\x25\xd1\x0e\x41\xc5\x8d\xff\x57\xd7\x5d\xf5\xd3\x3a\xd4\x69\xbc\x81\x66\x0e\x26\x1c\x00\x08\xa7\xc9"
}

// The same with three wrong slot-type bits, all of column 4 wrong, and a bit of every other column.
fn damaged() -> [u8; 33] {
    *b"\x06\x49\x2f\xab\xbd\x37\x14\x4b\x2d\xd3\x0a\x49\xe5\x9d\xff\x57\xd7\x5d\xf5\xd3\xba\xdc\x6b\xb8\xc1\x66\x1e\x06\x18\x41\x88\xc7\xcb"
}

fn written<W: Write>(report: &mut Report<W>, text: &[u8], sync: Sync, expected: &[u8])
    ensures { MoreCases 1 report.old.tally report.new.tally }
{
    let octets = burst::write(1, 6, info(), sync).unwrap_or([0u8; 33]);
    report.octets(b"writing a burst, ", text, &octets, expected);
}

// The data type stays a number, one that the writer refuses among them.
fn not_written<W: Write>(report: &mut Report<W>, text: &[u8], colour: u8, datatype: u8)
    ensures { MoreCases 1 report.old.tally report.new.tally }
{
    let number = number_of(burst::write(colour, datatype, info(), Sync::Base));
    report.number(b"writing a burst, ", text, 2, number, 16);
}

fn read<W: Write>(report: &mut Report<W>, text: &[u8], octets: &[u8])
    ensures { MoreCases 1 report.old.tally report.new.tally }
{
    let found = burst::read(octets).map_or([0u8; 12], |b| b.info);
    report.octets(b"reading a burst, ", text, &found, &info());
}

fn refused<W: Write>(report: &mut Report<W>, text: &[u8], octets: &[u8], expected: u32)
    ensures { MoreCases 1 report.old.tally report.new.tally }
{
    report.number(
        b"reading a burst, ",
        text,
        1,
        number_of(burst::read(octets)),
        expected,
    );
}

fn written_bursts<W: Write>(report: &mut Report<W>)
    ensures { MoreCases 4 report.old.tally report.new.tally }
{
    let mobile =
        b"\x02\x59\x29\xbb\x1d\x37\x14\x8a\x25\xd1\x0e\x41\xc5\x8d\x5d\x7f\x77\xfd\x75\x73\x3a\xd4\x69\xbc\x81\x66\x0e\x26\x1c\x00\x08\xa7\xc9";
    written(report, b"base", Sync::Base, &whole());
    written(report, b"mobile", Sync::Mobile, mobile);
    not_written(report, b"colour code 16, number", 16, 6);
    not_written(report, b"data type 2, number", 1, 2);
}

fn read_bursts<W: Write>(report: &mut Report<W>)
    ensures { MoreCases 2 report.old.tally report.new.tally }
{
    read(report, b"as written", &whole());
    read(report, b"damaged as demand 2 allows", &damaged());
}

fn refused_bursts<W: Write>(report: &mut Report<W>)
    ensures { MoreCases 3 report.old.tally report.new.tally }
{
    let idle =
        b"\x53\xc2\x5e\xab\xa8\x67\x1d\xc7\x38\x3b\xd9\x36\x00\x0d\xff\x57\xd7\x5d\xf5\xd0\x03\xf6\xe4\x65\x17\x1b\x48\xca\x6d\x4f\xc6\x10\xb4";
    let two =
        b"\x02\x59\x29\xbb\x1d\x37\x94\x8a\x25\xd5\x0e\x49\xc5\x8d\xff\x57\xd7\x5d\xf5\xd3\x3a\xd4\x69\xb8\x81\x66\x0e\x26\x1c\x00\x08\xa7\xc9";
    refused(report, b"the idle burst, number", idle, 5);
    refused(report, b"two bad columns, number", two, 6);
    refused(report, b"32 octets, number", &[0u8; 32], 1);
}

fn labels() -> Labels {
    Labels {
        sequence: 255,
        source: RadioAddress(0x1A0B0C),
        target: RadioAddress(0x002104),
        repeater: RepeaterNumber(0x01020304),
        timeslot: 1,
        call: 0,
        stream: 0xCAFE0001,
    }
}

fn carried<W: Write>(report: &mut Report<W>, text: &[u8], octets: &[u8], expected: u32)
    ensures { MoreCases 1 report.old.tally report.new.tally }
{
    report.number(
        b"reading a datagram, ",
        text,
        1,
        number_of(datagrams::read(octets)),
        expected,
    );
}

// The datagram of these labels and the burst above.
fn datagram_octets() -> [u8; 53] {
    *b"\x44\x4d\x52\x44\xff\x1a\x0b\x0c\x00\x21\x04\x01\x02\x03\x04\xa6\xca\xfe\x00\x01\x02\x59\x29\xbb\x1d\x37\x14\x8a\x25\xd1\x0e\x41\xc5\x8d\xff\x57\xd7\x5d\xf5\xd3\x3a\xd4\x69\xbc\x81\x66\x0e\x26\x1c\x00\x08\xa7\xc9"
}

fn written_datagram<W: Write>(report: &mut Report<W>)
    ensures { MoreCases 1 report.old.tally report.new.tally }
{
    let octets = datagrams::write(labels(), 1, 6, info(), Sync::Base).unwrap_or([0u8; 53]);
    report.octets(b"writing a datagram", b"", &octets, &datagram_octets());
}

// What it reads as, and the counter of the next one.
fn read_datagram<W: Write>(report: &mut Report<W>)
    ensures { MoreCases 3 report.old.tally report.new.tally }
{
    let found = datagrams::read(&datagram_octets());
    let got = found.map_or([0u8; 12], |d| d.info);
    let stream = found.map_or(0, |d| d.labels.stream);
    report.octets(b"reading this datagram, ", b"information", &got, &info());
    report.number(b"reading this datagram, ", b"stream", 8, stream, 0xCAFE0001);
    report.number(
        b"sequence counter after ",
        b"ff",
        2,
        u32::from(datagrams::next_sequence(255)),
        0,
    );
}

fn damaged_datagrams<W: Write>(report: &mut Report<W>)
    ensures { MoreCases 4 report.old.tally report.new.tally }
{
    let three =
        b"\x44\x4d\x52\x44\xff\x1a\x0b\x0c\x00\x21\x04\x01\x02\x03\x04\xa6\xca\xfe\x00\x01\x02\x59\x29\xbb\x1d\x37\x14\x8a\x25\xd1\x0e\x41\xfd\x8d\xff\x57\xd7\x5d\xf5\xd3\x3a\xd4\x69\xbc\x81\x66\x0e\x26\x1c\x00\x08\xa7\xc9";
    let four =
        b"\x44\x4d\x52\x44\xff\x1a\x0b\x0c\x00\x21\x04\x01\x02\x03\x04\xa6\xca\xfe\x00\x01\x02\x59\x29\xbb\x1d\x37\x14\x8a\x25\xd1\x0e\x41\xf9\x8d\xff\x57\xd7\x5d\xf5\xd3\x3a\xd4\x69\xbc\x81\x66\x0e\x26\x1c\x00\x08\xa7\xc9";
    carried(report, b"three wrong slot-type bits, number", three, 0);
    carried(report, b"four wrong slot-type bits, number", four, 4);
    carried(report, b"53 zeros, number", &[0u8; 53], 2);
    carried(report, b"54 zeros, number", &[0u8; 54], 1);
}

fn other_datagrams<W: Write>(report: &mut Report<W>)
    ensures { MoreCases 2 report.old.tally report.new.tally }
{
    let frame =
        b"\x44\x4d\x52\x44\xff\x1a\x0b\x0c\x00\x21\x04\x01\x02\x03\x04\x96\xca\xfe\x00\x01\x02\x59\x29\xbb\x1d\x37\x14\x8a\x25\xd1\x0e\x41\xc5\x8d\xff\x57\xd7\x5d\xf5\xd3\x3a\xd4\x69\xbc\x81\x66\x0e\x26\x1c\x00\x08\xa7\xc9";
    let datatype =
        b"\x44\x4d\x52\x44\xff\x1a\x0b\x0c\x00\x21\x04\x01\x02\x03\x04\xa7\xca\xfe\x00\x01\x02\x59\x29\xbb\x1d\x37\x14\x8a\x25\xd1\x0e\x41\xc5\x8d\xff\x57\xd7\x5d\xf5\xd3\x3a\xd4\x69\xbc\x81\x66\x0e\x26\x1c\x00\x08\xa7\xc9";
    carried(report, b"frame type 1, number", frame, 3);
    carried(report, b"data type 7 and slot type 6, number", datatype, 5);
}

fn bursts<W: Write>(report: &mut Report<W>)
    ensures { MoreCases 9 report.old.tally report.new.tally }
{
    written_bursts(report);
    read_bursts(report);
    refused_bursts(report);
}

fn datagrams<W: Write>(report: &mut Report<W>)
    ensures { MoreCases 10 report.old.tally report.new.tally }
{
    written_datagram(report);
    read_datagram(report);
    damaged_datagrams(report);
    other_datagrams(report);
}

pub fn cases<W: Write>(report: &mut Report<W>)
    ensures { MoreCases 19 report.old.tally report.new.tally }
{
    bursts(report);
    datagrams(report);
}
