// Slot types, written and read.
ghost use Rattle.report.specs.Counted.{MoreCases};

use codes::slot_type;
use report::Report;
use std::io::Write;

// What a word reads as, in one number, as a case has it: its octet, or 256 times the number of its refusal.
fn reading(word: u32) -> u32 {
    match slot_type::read(word) {
        Ok(octet) => u32::from(octet),
        Err(refusal) => 256 * u32::from(refusal.number()),
    }
}

fn written<W: Write>(report: &mut Report<W>, text: &[u8], octet: u8, expected: u32)
    ensures { MoreCases 1 report.old.tally report.new.tally }
{
    report.number(b"slot type ", text, 5, slot_type::write(octet), expected);
}

fn read<W: Write>(report: &mut Report<W>, text: &[u8], word: u32, expected: u32)
    ensures { MoreCases 1 report.old.tally report.new.tally }
{
    report.number(b"reading slot word ", text, 2, reading(word), expected);
}

fn refused<W: Write>(report: &mut Report<W>, text: &[u8], word: u32, expected: u32)
    ensures { MoreCases 1 report.old.tally report.new.tally }
{
    report.number(
        b"reading slot word ",
        text,
        1,
        reading(word) / 256,
        expected,
    );
}

// How many octets read back from their slot types.
fn read_back() -> u32 {
    let mut n: u32 = 0;
    for octet in 0..=255 {
        if reading(slot_type::write(octet)) == u32::from(octet) {
            n += 1;
        }
    }
    n
}

// The octets with a single bit. Every other word is a sum of their words.
fn low_bits<W: Write>(report: &mut Report<W>)
    ensures { MoreCases 4 report.old.tally report.new.tally }
{
    written(report, b"01", 0x01, 0x018EB);
    written(report, b"02", 0x02, 0x0293E);
    written(report, b"04", 0x04, 0x04A97);
    written(report, b"08", 0x08, 0x08DC6);
}

fn high_bits<W: Write>(report: &mut Report<W>)
    ensures { MoreCases 4 report.old.tally report.new.tally }
{
    written(report, b"10", 0x10, 0x10367);
    written(report, b"20", 0x20, 0x206CD);
    written(report, b"40", 0x40, 0x40D99);
    written(report, b"80", 0x80, 0x803DA);
}

// 09 is idle with colour code 0.
fn sums<W: Write>(report: &mut Report<W>)
    ensures { MoreCases 3 report.old.tally report.new.tally }
{
    written(report, b"09", 0x09, 0x0952D);
    written(report, b"16", 0x16, 0x160CE);
    written(report, b"ff", 0xFF, 0xFFD6D);
}

// The published idle burst has 0 in all twenty bits of its slot type.
fn corrections<W: Write>(report: &mut Report<W>)
    ensures { MoreCases 4 report.old.tally report.new.tally }
{
    read(report, b"018eb", 0x018EB, 0x01);
    read(report, b"00000, that of the idle burst", 0x00000, 0x00);
    read(
        report,
        b"160ce with three wrong bits",
        0x160CE ^ 0x80401,
        0x16,
    );
    read(report, b"160ce with three wrong parity bits", 0x160DD, 0x16);
}

fn all_octets<W: Write>(report: &mut Report<W>)
    ensures { MoreCases 1 report.old.tally report.new.tally }
{
    report.number(
        b"octets that read back from ",
        b"their slot types",
        3,
        read_back(),
        0x100,
    );
}

fn refusals<W: Write>(report: &mut Report<W>)
    ensures { MoreCases 4 report.old.tally report.new.tally }
{
    refused(
        report,
        b"160ce with four wrong bits, number",
        0x160CE ^ 0x80403,
        4,
    );
    refused(report, b"fffff, number", 0xFFFFF, 4);
    refused(report, b"100000, number", 0x10_0000, 1);
    refused(report, b"100018eb, number", 0x1000_18EB, 1);
}

fn writing<W: Write>(report: &mut Report<W>)
    ensures { MoreCases 11 report.old.tally report.new.tally }
{
    low_bits(report);
    high_bits(report);
    sums(report);
}

fn reading_words<W: Write>(report: &mut Report<W>)
    ensures { MoreCases 9 report.old.tally report.new.tally }
{
    corrections(report);
    all_octets(report);
    refusals(report);
}

pub fn cases<W: Write>(report: &mut Report<W>)
    ensures { MoreCases 20 report.old.tally report.new.tally }
{
    writing(report);
    reading_words(report);
}
