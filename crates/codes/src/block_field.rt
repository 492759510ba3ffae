// The block field, read and written by words: a word of 15 bits for each row of the matrix, column 0 the highest bit.
ghost use Rattle.std.specs.Prelude.{◌≡◌, true, ℕ, ◌+◌, ◌*◌, ◌/◌, ◌%◌, ◌^◌, ◌<◌};
ghost use Rattle.foundation.specs.Bits.{digits, value_of, tabulate};
ghost use Rattle.codes.specs.Hamming.{syndrome, with_parity};
ghost use Rattle.codes.specs.Field.{information, product, written_field, columns_good, info_bit, info_octets, read_field, field_given};
ghost use Rattle.codes.specs.Claims.{FieldComesBack};
ghost use Rattle.codes.specs.Words.{cell, column, matrix_read, Sliced, ColumnsRight, RowRight, RowsRight, LaneRemainders, RowRemainders, NoneLeft, Codewords, data_rows};

use foundation::refusal::Refusal;

// A number below 16 for each column, its bits in four words, the lowest in a.
#[derive(Clone, Copy)]
struct Nibbles {
    a: u16,
    b: u16,
    c: u16,
    d: u16,
}

// The remainders of all columns at once.
fn column_remainders(m: [u16; 13]) -> Nibbles
    ensures { Sliced (λ k. syndrome (column m k) 13) result.a result.b result.c result.d }
{
    let mut a: u16 = 0;
    let mut b: u16 = 0;
    let mut c: u16 = 0;
    let mut d: u16 = 0;
    for w in m {
        let t = d;
        d = c;
        c = b;
        b = a ^ t;
        a = w ^ t;
    }
    Nibbles { a, b, c, d }
}

// One wrong bit put right in each column whose remainder names a row. A remainder times x^(3 + r) is 1 where it names row r,
// since x^15 is 1.
fn correct_columns(m: [u16; 13]) -> [u16; 13]
    ensures { ColumnsRight m result }
{
    let s = column_remainders(m);
    let mut a = s.b;
    let mut b = s.c ^ s.b;
    let mut c = s.d ^ s.c;
    let mut d = s.a ^ s.d;
    let mut out = m;
    for w in &mut out {
        let others = b | c | d;
        *w ^= (a | others) ^ others;
        let t = d;
        d = c;
        c = b;
        b = a ^ t;
        a = t;
    }
    out
}

// The remainders of four rows, each in a lane of 16 bits. What stands above bit 4 k comes back at x^k + 1, since x^4 is x + 1.
fn lane_remainders(x: u64) -> u64
    ensures { LaneRemainders x result }
{
    let a = (x >> 8) & 0x007F_007F_007F_007F;
    let u = (x & 0x00FF_00FF_00FF_00FF) ^ a ^ (a << 2);
    let h = (u >> 4) & 0x001F_001F_001F_001F;
    let v = (u & 0x000F_000F_000F_000F) ^ h ^ (h << 1);
    let g = (v >> 4) & 0x0003_0003_0003_0003;
    (v & 0x000F_000F_000F_000F) ^ g ^ (g << 1)
}

// Four rows in a word, the first in the lowest lane.
fn four_rows(a: u16, b: u16, c: u16, d: u16) -> u64
    ensures { result ≡ a + 2 ^ 16 * b + 2 ^ 32 * c + 2 ^ 48 * d }
{
    (a as u64)
        + 0x1_0000 * (b as u64)
        + 0x1_0000_0000 * (c as u64)
        + 0x1_0000_0000_0000 * (d as u64)
}

// The remainders of all rows, four in a word.
fn row_remainders(m: [u16; 13]) -> [u64; 4]
    ensures { RowRemainders m result }
{
    [
        lane_remainders(four_rows(m[0], m[1], m[2], m[3])),
        lane_remainders(four_rows(m[4], m[5], m[6], m[7])),
        lane_remainders(four_rows(m[8], m[9], m[10], m[11])),
        lane_remainders(four_rows(m[12], 0, 0, 0)),
    ]
}

// Whether every remainder of the four words is 0.
fn none_left(s: [u64; 4]) -> bool
    ensures { result ≡ true → NoneLeft s }
{
    (s[0] | s[1] | s[2] | s[3]) == 0
}

// A row with one wrong bit put right, by its remainder s. Digit s of the number is the bit that s names, 15 for none.
fn correct_row(w: u16, s: u64) -> u16
    requires { s ≡ syndrome (digits 15 w) 15 }
    ensures { RowRight w result }
{
    let k: u64 = (0xCBD6_79E3_A582_410F >> (4 * s)) % 16;
    w ^ (1 << k)
}

// One wrong bit put right in each row.
fn correct_rows(m: [u16; 13]) -> [u16; 13]
    ensures { RowsRight m result }
{
    let s = row_remainders(m);
    if none_left(s) {
        return m;
    }
    let mut out = m;
    // By number, since a row's number also says where its remainder stands.
    for r in 0..13 {
        out[r] = correct_row(out[r], (s[r / 4] >> (16 * (r % 4))) % 16);
    }
    out
}

// Whether every column is a codeword.
fn columns_good(m: [u16; 13]) -> bool
    ensures { result ≡ columns_good (cell m) }
{
    let s = column_remainders(m);
    let x = s.a | s.b | s.c | s.d;
    x % 32768 == 0
}

// Whether every row and every column is found to be a codeword. Most fields have no wrong bit, and need no correction.
fn is_clean(m: [u16; 13]) -> bool
    ensures { result ≡ true → Codewords m }
{
    columns_good(m) && none_left(row_remainders(m))
}

// The eleven data bits of a row.
fn data_of(w: u16) -> u64
    ensures { result ≡ w / 16 % 2048 }
{
    (w / 16 % 2048) as u64
}

// Information bits 0 to 63. R(2), R(1), R(0) go out at the top.
fn first_info(m: [u16; 13]) -> u64
    ensures { result ≡ value_of (info_bit (cell m)) 0 64 }
{
    (data_of(m[0]) << 56)
        + (data_of(m[1]) << 45)
        + (data_of(m[2]) << 34)
        + (data_of(m[3]) << 23)
        + (data_of(m[4]) << 12)
        + (data_of(m[5]) << 1)
        + (data_of(m[6]) >> 10)
}

// Information bits 64 to 95.
fn last_info(m: [u16; 13]) -> u64
    ensures { result ≡ value_of (info_bit (cell m)) 64 32 }
{
    ((data_of(m[6]) % 1024) << 22) + (data_of(m[7]) << 11) + data_of(m[8])
}

// The 12 information octets.
fn info_octets(m: [u16; 13]) -> [u8; 12]
    ensures { result ≡ info_octets (cell m) }
{
    let p = foundation::octets::octets_of(first_info(m));
    let q = foundation::octets::octets_of(last_info(m) << 32);
    [
        p[0], p[1], p[2], p[3], p[4], p[5], p[6], p[7], q[0], q[1], q[2], q[3],
    ]
}

// What a matrix of codewords reads as.
fn read_matrix(m: [u16; 13]) -> Result<[u8; 12], Refusal>
    requires { Codewords m }
    ensures { result ≡ field_given (matrix_read (cell m)) }
{
    if m[0] / 4096 % 8 != 0 {
        return Err(Refusal::Reserved);
    }
    Ok(info_octets(m))
}

// Reads the 25 octets of a block field.
pub fn read(field: &[u8]) -> Result<[u8; 12], Refusal>
    ensures { result ≡ field_given (read_field field.now) }
{
    if field.len() != 25 {
        return Err(Refusal::Size);
    }
    let m = interleaver::reading::rows(field);
    if is_clean(m) {
        return read_matrix(m);
    }
    let corrected = correct_rows(correct_columns(m));
    if !columns_good(corrected) {
        return Err(Refusal::Uncorrectable);
    }
    read_matrix(corrected)
}

// ---- writing

// The eleven data bits of row r. The first eight octets of information end in row 5, the last eight begin in row 3.
fn data_row(info: [u8; 12], r: usize) -> u16
    requires { r < 9 }
    ensures { result ≡ value_of (information info r) 0 11 }
{
    if r < 6 {
        return ((foundation::octets::word_at(&info, 0) >> (56 - 11 * r)) % 2048) as u16;
    }
    ((foundation::octets::word_at(&info, 4) >> (88 - 11 * r)) % 2048) as u16
}

// Eleven data bits with their four parity bits.
fn coded_row(x: u16) -> u16
    requires { x < 2048 }
    ensures { result ≡ value_of (with_parity 11 (digits 11 x)) 0 15 }
{
    let w = x * 16;
    w ^ ((lane_remainders(w as u64) % 16) as u16)
}

// The nine rows of data with their parity, and four rows of zeros.
fn data_rows(info: [u8; 12]) -> [u16; 13]
    ensures { result ≡ tabulate 13 (data_rows info) }
{
    let mut m = [0u16; 13];
    // By number, since a row's number says where its bits begin.
    for r in 0..9 {
        m[r] = coded_row(data_row(info, r));
    }
    m
}

// The whole matrix: the remainders of the columns are their parity.
fn matrix(info: [u8; 12]) -> [u16; 13]
    ensures { (r c : ℕ) → r < 13 → c < 15 → cell result r c ≡ product (information info) r c }
{
    let mut m = data_rows(info);
    let s = column_remainders(m);
    m[9] = s.d;
    m[10] = s.c;
    m[11] = s.b;
    m[12] = s.a;
    m
}

// The 25 octets of the block field for 12 octets of information. They come back also where at most one of the 15 columns holds more than
// one wrong bit.
pub fn write(info: [u8; 12]) -> [u8; 25]
    ensures { (result ≡ written_field info) × FieldComesBack info result }
{
    interleaver::writing::octets(matrix(info))
}
