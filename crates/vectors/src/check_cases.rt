// The checks of headers, blocks and messages.
ghost use Rattle.report.specs.Counted.{MoreCases};

use report::Report;
use std::io::Write;

fn header<W: Write>(report: &mut Report<W>, text: &[u8], mask: u16, octets: &[u8], expected: u32)
    ensures { MoreCases 1 report.old.tally report.new.tally }
{
    report.number(
        b"header check of ",
        text,
        4,
        u32::from(checks::header(mask, octets)),
        expected,
    );
}

fn good_header<W: Write>(
    report: &mut Report<W>,
    text: &[u8],
    mask: u16,
    octets: &[u8],
    expected: bool,
)
    ensures { MoreCases 1 report.old.tally report.new.tally }
{
    report.answer(
        b"good header, ",
        text,
        checks::header_good(mask, octets),
        expected,
    );
}

fn block<W: Write>(report: &mut Report<W>, text: &[u8], serial: u8, octets: &[u8], expected: u32)
    ensures { MoreCases 1 report.old.tally report.new.tally }
{
    report.number(
        b"block check of ",
        text,
        3,
        u32::from(checks::block(serial, octets)),
        expected,
    );
}

fn good_block<W: Write>(report: &mut Report<W>, text: &[u8], octets: &[u8], expected: bool)
    ensures { MoreCases 1 report.old.tally report.new.tally }
{
    report.answer(b"good block, ", text, checks::block_good(octets), expected);
}

fn message<W: Write>(report: &mut Report<W>, text: &[u8], octets: &[u8], expected: u32)
    ensures { MoreCases 1 report.old.tally report.new.tally }
{
    report.number(
        b"message check of ",
        text,
        8,
        checks::message(octets),
        expected,
    );
}

fn message_octets<W: Write>(report: &mut Report<W>, text: &[u8], octets: &[u8], expected: &[u8])
    ensures { MoreCases 1 report.old.tally report.new.tally }
{
    let found = checks::message_octets(octets);
    report.octets(b"octets of the message check of ", text, &found, expected);
}

fn good_message<W: Write>(report: &mut Report<W>, text: &[u8], octets: &[u8], expected: bool)
    ensures { MoreCases 1 report.old.tally report.new.tally }
{
    report.answer(
        b"good message, ",
        text,
        checks::message_good(octets),
        expected,
    );
}

// Mask ffff undoes the inversion, so 31c3 is the CCITT remainder of 123456789 itself, the published value.
fn headers<W: Write>(report: &mut Report<W>)
    ensures { MoreCases 3 report.old.tally report.new.tally }
{
    let zeros = [0u8; 10];
    header(report, b"ten zeros, mask cccc", 0xCCCC, &zeros, 0x3333);
    header(report, b"ten zeros, mask 0000", 0x0000, &zeros, 0xFFFF);
    header(
        report,
        b"123456789, mask ffff",
        0xFFFF,
        b"123456789",
        0x31C3,
    );
}

fn good_headers<W: Write>(report: &mut Report<W>)
    ensures { MoreCases 4 report.old.tally report.new.tally }
{
    let good = b"\0\0\0\0\0\0\0\0\0\0\x33\x33";
    let bad = b"\0\0\0\0\0\0\0\0\0\0\x33\x34";
    good_header(report, b"ten zeros and 3333, mask cccc", 0xCCCC, good, true);
    good_header(report, b"ten zeros and 3334, mask cccc", 0xCCCC, bad, false);
    good_header(
        report,
        b"ten zeros and 3333, mask 0000",
        0x0000,
        good,
        false,
    );
    good_header(report, b"33, mask cccc", 0xCCCC, b"\x33", false);
}

// A serial has seven bits: 85 is 05.
fn blocks<W: Write>(report: &mut Report<W>)
    ensures { MoreCases 3 report.old.tally report.new.tally }
{
    let zeros = [0u8; 10];
    let ten = b"\x01\x02\x03\x04\x05\x06\x07\x08\x09\x0a";
    block(report, b"serial 00 and ten zeros", 0x00, &zeros, 0x10F);
    block(report, b"serial 05 and 01 to 0a", 0x05, ten, 0x00E);
    block(report, b"serial 85 and 01 to 0a", 0x85, ten, 0x00E);
}

fn good_blocks<W: Write>(report: &mut Report<W>)
    ensures { MoreCases 4 report.old.tally report.new.tally }
{
    let good = b"\x01\x0f\0\0\0\0\0\0\0\0\0\0";
    let bad = b"\x01\x0e\0\0\0\0\0\0\0\0\0\0";
    let five = b"\x0a\x0e\x01\x02\x03\x04\x05\x06\x07\x08\x09\x0a";
    good_block(report, b"010f and ten zeros", good, true);
    good_block(report, b"010e and ten zeros", bad, false);
    good_block(report, b"0a0e and 01 to 0a", five, true);
    good_block(report, b"01", b"\x01", false);
}

// The message's check exchanges the octets of each pair, so 89a1897f is the 04c11db7 remainder of 123456789, the published value.
fn messages<W: Write>(report: &mut Report<W>)
    ensures { MoreCases 3 report.old.tally report.new.tally }
{
    let digits = b"214365879";
    message(report, b"214365879", digits, 0x89A1_897F);
    message_octets(report, b"214365879", digits, b"\x7f\x89\xa1\x89");
    message(report, b"no octets", b"", 0);
}

fn good_messages<W: Write>(report: &mut Report<W>)
    ensures { MoreCases 4 report.old.tally report.new.tally }
{
    let good = b"214365879\x7f\x89\xa1\x89";
    good_message(report, b"214365879 and 7f89a189", good, true);
    good_message(report, b"00000000", b"\0\0\0\0", true);
    good_message(report, b"00000001", b"\0\0\0\x01", false);
    good_message(report, b"000000", b"\0\0\0", false);
}

fn no_message<W: Write>(report: &mut Report<W>)
    ensures { MoreCases 1 report.old.tally report.new.tally }
{
    good_message(report, b"no octets", b"", false);
}

fn header_cases<W: Write>(report: &mut Report<W>)
    ensures { MoreCases 7 report.old.tally report.new.tally }
{
    headers(report);
    good_headers(report);
}

fn block_cases<W: Write>(report: &mut Report<W>)
    ensures { MoreCases 7 report.old.tally report.new.tally }
{
    blocks(report);
    good_blocks(report);
}

fn message_cases<W: Write>(report: &mut Report<W>)
    ensures { MoreCases 8 report.old.tally report.new.tally }
{
    messages(report);
    good_messages(report);
    no_message(report);
}

pub fn cases<W: Write>(report: &mut Report<W>)
    ensures { MoreCases 22 report.old.tally report.new.tally }
{
    header_cases(report);
    block_cases(report);
    message_cases(report);
}
