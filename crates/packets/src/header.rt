// A header of 12 octets.
ghost use Rattle.std.specs.Prelude.{◌≡◌, ◌<◌, IfOk, eqb};
ghost use Rattle.foundation.specs.Order.{first_failed};
ghost use Rattle.packets.specs.Headers.{common_of, header_of, known_format, read_header, header_given, header_body, with_check, common_widths, widths, write_header, header_octets_given, header_for};
ghost use Rattle.packets.specs.HeaderClaims.{HeaderReadsBack};
ghost use Rattle.packets.specs.Parts.{format_number, common_fields, last_octet, last_widths, CommonWithin, LastWithin};

use addresses::RadioAddress;
use foundation::refusal::Refusal;

// The mask of headers.
const MASK: u16 = 0xCCCC;

// The fields that all formats have. `requested` is A, response requested; `full` the full-message flag, `blocks` the block count. Bits and
// counts stay numbers: the writer takes any, and refuses with 16 those over their width.
#[derive(Clone, Copy, Debug, PartialEq, Eq)]
pub struct Common {
    pub group: u8,
    pub requested: u8,
    pub pad: u8,
    pub sap: u8,
    pub destination: RadioAddress,
    pub source: RadioAddress,
    pub full: u8,
    pub blocks: u8,
}

// A header by its format: 1 with class, type and status; 2 with FSN; 3 with S, N(S) and FSN, each a number like the fields above.
#[derive(Clone, Copy, Debug, PartialEq, Eq)]
pub enum Header {
    Response(Common, u8, u8, u8),
    Unconfirmed(Common, u8),
    Confirmed(Common, u8, u8, u8),
}

// ---- reading

// The fields that all formats have.
fn read_common(h: &[u8]) -> Common
    ensures { result ≡ common_of h.now }
{
    let first = foundation::octets::at(h, 0);
    let second = foundation::octets::at(h, 1);
    let ninth = foundation::octets::at(h, 8);
    Common {
        group: first / 128,
        requested: first / 64 % 2,
        pad: 16 * (first / 16 % 2) + second % 16,
        sap: second / 16,
        destination: addresses::address_at(h, 2),
        source: addresses::address_at(h, 5),
        full: ninth / 128,
        blocks: ninth % 128,
    }
}

// The header, by its format; octet 9 of a format not known is read as that of format 3.
fn read_fields(h: &[u8]) -> Header
    ensures { result ≡ header_of h.now }
{
    let c = read_common(h);
    let last = foundation::octets::at(h, 9);
    match foundation::octets::at(h, 0) % 16 {
        1 => Header::Response(c, last / 64, last / 8 % 8, last % 8),
        2 => Header::Unconfirmed(c, last % 16),
        _ => Header::Confirmed(c, last / 128, last / 16 % 8, last % 16),
    }
}

// Whether a format is 1, 2 or 3. It stays a number here: four bits of an octet, any of them.
#[tactic(auto, unfolding(crate::specs::Headers::known_format))]
fn known(format: u8) -> bool
    ensures { result ≡ known_format format }
{
    format != 0 && format < 4
}

// Reads a header.
pub fn read(octets: &[u8]) -> Result<Header, Refusal>
    ensures { result ≡ header_given (read_header octets.now) }
{
    if octets.len() != 12 {
        return Err(Refusal::Size);
    }
    let good = checks::header_good(MASK, octets);
    let format_known = known(octets[0] % 16);
    if !good {
        return Err(Refusal::HeaderCheck);
    }
    if !format_known {
        return Err(Refusal::Format);
    }
    Ok(read_fields(octets))
}

// ---- writing

fn format_of(h: Header) -> u8
    ensures { result ≡ format_number h }
{
    match h {
        Header::Response(_, _, _, _) => 1,
        Header::Unconfirmed(_, _) => 2,
        Header::Confirmed(_, _, _, _) => 3,
    }
}

fn common_of(h: Header) -> Common
    ensures { result ≡ common_fields h }
{
    match h {
        Header::Response(c, _, _, _) => c,
        Header::Unconfirmed(c, _) => c,
        Header::Confirmed(c, _, _, _) => c,
    }
}

// Octet 9.
fn last_of(h: Header) -> u8
    requires { LastWithin h }
    ensures { result ≡ last_octet h }
{
    match h {
        Header::Response(_, class, kind, status) => 64 * class + 8 * kind + status,
        Header::Unconfirmed(_, fsn) => fsn,
        Header::Confirmed(_, s, ns, fsn) => 128 * s + 16 * ns + fsn,
    }
}

// Whether each field that all formats have is within its width.
#[tactic(auto, unfolding(foundation::specs::Order::first_failed, crate::specs::Headers::common_widths))]
fn common_fits(c: Common) -> bool
    ensures { result ≡ eqb (first_failed (widths (common_widths c))) 0 }
{
    c.group < 2
        && c.requested < 2
        && c.pad < 32
        && c.sap < 16
        && c.destination.fits()
        && c.source.fits()
        && c.full < 2
        && c.blocks < 128
}

// Whether each field of octet 9 is within its width.
#[tactic(auto, unfolding(foundation::specs::Order::first_failed, crate::specs::Parts::last_widths))]
fn last_fits(h: Header) -> bool
    ensures { result ≡ eqb (first_failed (widths (last_widths h))) 0 }
{
    match h {
        Header::Response(_, class, kind, status) => class < 4 && kind < 8 && status < 8,
        Header::Unconfirmed(_, fsn) => fsn < 16,
        Header::Confirmed(_, s, ns, fsn) => s < 2 && ns < 8 && fsn < 16,
    }
}

// The octets of a header by its parts. The format stays a number: it goes into octet 0 as it is.
fn octets_of(format: u8, c: Common, last: u8) -> [u8; 12]
    requires { (format < 16) × CommonWithin c }
    ensures { result ≡ with_check (header_body format c last) }
{
    let to = c.destination.octets();
    let from = c.source.octets();
    let mut os = [0u8; 12];
    os[0] = 128 * c.group + 64 * c.requested + 16 * (c.pad / 16) + format;
    os[1] = 16 * c.sap + c.pad % 16;
    os[2] = to[0];
    os[3] = to[1];
    os[4] = to[2];
    os[5] = from[0];
    os[6] = from[1];
    os[7] = from[2];
    os[8] = 128 * c.full + c.blocks;
    os[9] = last;
    let [high, low] = checks::header(MASK, &os[..10]).to_be_bytes();
    os[10] = high;
    os[11] = low;
    os
}

// Writes a header, which reads back. Inlined, since a Result that goes through memory is read there in other pieces than it was written in,
// which took half as long again.
#[inline(always)]
pub fn write(h: Header) -> Result<[u8; 12], Refusal>
    ensures { (result ≡ header_octets_given (write_header h)) × HeaderReadsBack h (write_header h) × IfOk result (λ os. HeaderReadsBack h (record { number = 0; octets = os })) }
{
    let c = common_of(h);
    if !common_fits(c) || !last_fits(h) {
        return Err(Refusal::Unwritable);
    }
    Ok(octets_of(format_of(h), c, last_of(h)))
}

// The header of a format given as a number, with up to three fields for octet 9. It stays a number: C gives any, and one not 1 to 3 is
// refused with 16.
#[tactic(auto, unfolding(foundation::specs::Refusals::refusal, crate::specs::Headers::header_for, crate::specs::Headers::header_given))]
pub fn for_format(format: u8, c: Common, x: u8, y: u8, z: u8) -> Result<Header, Refusal>
    ensures { result ≡ header_given (header_for format c x y z) }
{
    match format {
        1 => Ok(Header::Response(c, x, y, z)),
        2 => Ok(Header::Unconfirmed(c, x)),
        3 => Ok(Header::Confirmed(c, x, y, z)),
        _ => Err(Refusal::Unwritable),
    }
}
