// Block fields, written and read. Position i of the plain order is bit 181 i mod 196 of the field, the first bit highest in octet 0.
// Row r, column c of the matrix is plain position 1 + 15 r + c.
ghost use Rattle.std.specs.Prelude.{ℕ, ◌<◌, ◌≤◌};
ghost use Rattle.report.specs.Counted.{MoreCases};

use codes::block_field;
use report::Report;
use std::io::Write;

// Positions in order: the first n of the octets, in fixed memory as everywhere here. (Of the kit's libraries this repository takes io alone.)
#[derive(Drop)]
struct Places {
    n: usize,
    at: [u8; 196],
    ghost fits: { n ≤ 196 },
}

impl Places {
    fn octets(&self) -> &[u8] {
        &self.at[..self.n]
    }
}

// The bit at position i of the plain order.
fn plain_bit(field: [u8; 25], i: u8) -> u8 {
    let p = 181 * (i as usize) % 196;
    (field[p / 8] >> (7 - p % 8)) % 2
}

// The bits at plain positions a, b, c and d as a number.
fn four_bits(field: [u8; 25], a: u8, b: u8, c: u8, d: u8) -> u32 {
    let high = (plain_bit(field, a) << 3) | (plain_bit(field, b) << 2);
    let low = (plain_bit(field, c) << 1) | plain_bit(field, d);
    u32::from(high | low)
}

// The positions of a field of which it holds.
fn all_where<F: Fn(u8) -> bool>(holds: F) -> Places
    requires { (p : ℕ) → p < 196 → F.pre holds p }
{
    let mut at = [0u8; 196];
    let mut n: usize = 0;
    for p in 0..196 {
        if holds(p) {
            at[n] = p;
            n += 1;
        }
    }
    Places { n, at }
}

// The plain positions of the ones of a field.
fn ones(field: [u8; 25]) -> Places {
    all_where(|i| plain_bit(field, i) == 1)
}

// The field with bit p changed.
fn changed(mut field: [u8; 25], p: u8) -> [u8; 25]
    requires { p < 196 }
{
    let j = (p / 8) as usize;
    field[j] = field[j] ^ (128 >> (p % 8));
    field
}

fn number_of(field: &[u8]) -> u32 {
    u32::from(foundation::refusal::number_of(&block_field::read(field)))
}

// The bits of a field each of which, changed alone, makes it read as number 7.
fn deciding(field: [u8; 25]) -> Places {
    all_where(
        |p: u8| -> bool
            requires { p < 196 }
        { number_of(&changed(field, p)) == 7 },
    )
}

fn sent_at<W: Write>(report: &mut Report<W>, text: &[u8], field: [u8; 25], expected: &[u8])
    ensures { MoreCases 1 report.old.tally report.new.tally }
{
    let found = deciding(field);
    report.positions(
        b"sent positions of plain positions ",
        text,
        found.octets(),
        expected,
    );
}

fn written<W: Write>(report: &mut Report<W>, text: &[u8], info: [u8; 12], expected: &[u8])
    ensures { MoreCases 1 report.old.tally report.new.tally }
{
    let field = block_field::write(info);
    report.octets(b"writing ", text, &field, expected);
}

// What a field reads as: its 12 octets, or the number of its refusal in one.
fn read<W: Write>(report: &mut Report<W>, text: &[u8], field: &[u8], expected: &[u8])
    ensures { MoreCases 1 report.old.tally report.new.tally }
{
    match block_field::read(field) {
        Ok(info) => report.octets(b"reading ", text, &info, expected),
        Err(refusal) => report.octets(b"reading ", text, &[refusal.number()], expected),
    }
}

fn refused<W: Write>(report: &mut Report<W>, text: &[u8], field: &[u8], expected: u32)
    ensures { MoreCases 1 report.old.tally report.new.tally }
{
    report.number(b"reading ", text, 1, number_of(field), expected);
}

fn parity<W: Write>(report: &mut Report<W>, text: &[u8], value: u32, expected: u32)
    ensures { MoreCases 1 report.old.tally report.new.tally }
{
    report.number(b"parity of ", text, 1, value, expected);
}

// The data bits are those of row 1, of row 0 and of column 3. Their parity is in columns 11 to 14, and in rows 9 to 12.
fn parity_bits<W: Write>(report: &mut Report<W>)
    ensures { MoreCases 3 report.old.tally report.new.tally }
{
    let row_1 = block_field::write(*b"\0\x80\0\0\0\0\0\0\0\0\0\0");
    let row_0 = block_field::write(*b"\x01\0\0\0\0\0\0\0\0\0\0\0");
    let column_3 = block_field::write(*b"\x80\0\0\0\0\0\0\0\0\0\0\0");
    let first_11 = four_bits(row_1, 27, 28, 29, 30);
    let last_11 = four_bits(row_0, 12, 13, 14, 15);
    let first_9 = four_bits(column_3, 139, 154, 169, 184);
    parity(report, b"eleven bits, only the first 1", first_11, 0b1001);
    parity(report, b"eleven bits, only the last 1", last_11, 0b0011);
    parity(report, b"nine bits, only the first 1", first_9, 0b1111);
}

fn last_bit<W: Write>(report: &mut Report<W>)
    ensures { MoreCases 2 report.old.tally report.new.tally }
{
    let found = ones(block_field::write(*b"\0\0\0\0\0\0\0\0\0\0\0\x01"));
    let expected = [131u8, 134, 135, 176, 179, 180, 191, 194, 195];
    report.number(
        b"number of ones, ",
        b"96 bits, only the last 1",
        1,
        found.n as u32,
        9,
    );
    report.positions(
        b"plain positions of the ones, ",
        b"96 bits, only the last 1",
        found.octets(),
        &expected,
    );
}

// Plain positions 1, 2 and 3 are R(2), R(1) and R(0). They are always written 0, so the reader shows where they are sent. Each field
// is that of one of them 1 and no other data bit, but with column 11 all 0, and with rows 0 and 1 wrong in the column of the
// reserved bit. That is two bad columns, unless one of those two bits is changed: then the field reads as number 7.
fn interleaving<W: Write>(report: &mut Report<W>)
    ensures { MoreCases 4 report.old.tally report.new.tally }
{
    let r2 =
        *b"\x00\x01\x00\x04\x00\x08\x00\x20\x00\x40\x01\x00\x02\x00\x08\x00\x00\x00\x00\x80\x01\x00\x00\x00\x00";
    let r1 =
        *b"\x40\x03\x00\x00\x00\x1c\x00\x00\x00\xe0\x00\x00\x07\x00\x00\x00\x08\x40\x00\x00\x01\x00\x00\x00\x00";
    let r0 =
        *b"\x40\x01\x00\x0a\x00\x0c\x00\x50\x00\x60\x02\x80\x03\x00\x04\x20\x08\x00\x00\x00\x01\x00\x02\x00\x10";
    sent_at(report, b"16 and 1", r2, &[152, 181]);
    sent_at(report, b"17 and 2", r1, &[137, 166]);
    sent_at(report, b"18 and 3", r0, &[122, 151]);
    refused(report, b"the first of these fields, number", &r2, 6);
}

// The field of the published idle burst. Its information is written as the field again, so no bit was put right.
fn idle<W: Write>(report: &mut Report<W>)
    ensures { MoreCases 2 report.old.tally report.new.tally }
{
    let field =
        *b"\x53\xc2\x5e\xab\xa8\x67\x1d\xc7\x38\x3b\xd9\x36\x3f\x6e\x46\x51\x71\xb4\x8c\xa6\xd4\xfc\x61\x0b\x40";
    let info = *b"\xff\x83\xdf\x17\x32\x09\x4e\xd1\xe7\xcd\x8a\x91";
    read(report, b"the field of the idle burst", &field, &info);
    written(report, b"this information", info, &field);
}

// A field, and the same with other bits. The free bits are the first and the last four. One bad column: all of column 4 is wrong,
// and a bit of every other column. Two bad columns: two bits of column 4 are wrong, and two of column 5.
fn damage<W: Write>(report: &mut Report<W>)
    ensures { MoreCases 4 report.old.tally report.new.tally }
{
    let info = *b"\x01\x02\x03\x04\x05\x06\x07\x08\x09\x0a\x0b\x0c";
    let field =
        *b"\x06\xd1\x05\xf9\x00\xe8\x10\x53\x01\x22\xd2\x40\x87\x82\xb3\x8c\xbc\x20\x92\x30\xf9\xc1\x42\x70\x40";
    let free =
        *b"\x86\xd1\x05\xf9\x00\xe8\x10\x53\x01\x22\xd2\x40\x87\x82\xb3\x8c\xbc\x20\x92\x30\xf9\xc1\x42\x70\x4f";
    let one =
        *b"\x82\xc1\x03\xe9\xa0\xe8\x10\x92\x09\x20\xd6\x48\x87\x02\x93\xc8\xbc\x21\x90\x30\xbd\xd9\x44\x70\x60";
    let two =
        *b"\x06\xd1\x05\xf9\x00\xe8\x90\x53\x01\x26\xd2\x48\x87\x82\xb3\xcc\xbc\x20\x92\x30\xf9\xc1\x42\x70\x40";
    written(report, b"01 to 0c", info, &field);
    read(report, b"this field with its free bits 1", &free, &info);
    read(report, b"this field with one bad column", &one, &info);
    refused(report, b"this field with two bad columns, number", &two, 6);
}

// The first field has R(2) 1 and no other data bit.
fn refusals<W: Write>(report: &mut Report<W>)
    ensures { MoreCases 3 report.old.tally report.new.tally }
{
    let reserved =
        *b"\x00\x01\x80\x04\x00\x08\x00\x28\x00\x40\x01\x40\x02\x00\x0a\x00\x00\x00\x10\x00\x01\x00\x04\x00\x00";
    refused(report, b"a field with R(2) 1, number", &reserved, 7);
    refused(report, b"24 octets, number", &[0u8; 24], 1);
    refused(report, b"26 octets, number", &[0u8; 26], 1);
}

fn writing<W: Write>(report: &mut Report<W>)
    ensures { MoreCases 5 report.old.tally report.new.tally }
{
    parity_bits(report);
    last_bit(report);
}

fn reading<W: Write>(report: &mut Report<W>)
    ensures { MoreCases 13 report.old.tally report.new.tally }
{
    interleaving(report);
    idle(report);
    damage(report);
    refusals(report);
}

pub fn cases<W: Write>(report: &mut Report<W>)
    ensures { MoreCases 18 report.old.tally report.new.tally }
{
    writing(report);
    reading(report);
}
