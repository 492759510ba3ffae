// A datagram of 53 octets that carries a burst.
#![tactic(auto)]

ghost use Rattle.std.specs.Prelude.{◌≡◌, ◌<◌, true, ◌++◌, length, IfOk};
ghost use Rattle.datagrams.specs.Datagrams.{next_sequence, prefixed, labels_of, read_datagram, datagram_given, label_octets, write_datagram, datagram_octets_given};
ghost use Rattle.datagrams.specs.DatagramClaims.{DatagramComesBack};
ghost use Rattle.datagrams.specs.DatagramParts.{labels_fit};

use addresses::{RadioAddress, RepeaterNumber};
use bursts::burst::{Kind, Sync};
use foundation::refusal::Refusal;

// What stands before the burst, but for the data type. Slot and call stay numbers: the writer takes any, and refuses with 16 those over a bit.
#[derive(Clone, Copy, Debug, PartialEq, Eq)]
pub struct Labels {
    pub sequence: u8,
    pub source: RadioAddress,
    pub target: RadioAddress,
    pub repeater: RepeaterNumber,
    pub timeslot: u8,
    pub call: u8,
    pub stream: u32,
}

// What is read. The data type stays a number, as in a burst.
#[derive(Clone, Copy, Debug, PartialEq, Eq)]
pub struct Datagram {
    pub labels: Labels,
    pub colour: u8,
    pub datatype: u8,
    pub info: [u8; 12],
}

// The sequence counter of the next datagram of a run.
#[tactic(auto, unfolding(crate::specs::Datagrams::next_sequence))]
pub fn next_sequence(sequence: u8) -> u8
    ensures { result ≡ next_sequence sequence }
{
    sequence.wrapping_add(1)
}

// ---- reading

// Whether a datagram begins with the four letters.
fn has_prefix(d: &[u8]) -> bool
    requires { length d.now ≡ 53 }
    ensures { result ≡ prefixed d.now }
{
    d.starts_with(b"DMRD")
}

// What stands before the burst.
fn labels_of(d: &[u8]) -> Labels
    ensures { result ≡ labels_of d.now }
{
    let octet = foundation::octets::at(d, 15);
    Labels {
        sequence: foundation::octets::at(d, 4),
        source: addresses::address_at(d, 5),
        target: addresses::address_at(d, 8),
        repeater: RepeaterNumber(addresses::number_at(d, 11)),
        timeslot: octet / 128,
        call: octet / 64 % 2,
        stream: addresses::number_at(d, 16),
    }
}

// Reads a datagram.
pub fn read(datagram: &[u8]) -> Result<Datagram, Refusal>
    ensures { result ≡ datagram_given (read_datagram datagram.now) }
{
    if datagram.len() != 53 {
        return Err(Refusal::Size);
    }
    if !has_prefix(datagram) {
        return Err(Refusal::Prefix);
    }
    if datagram[15] / 16 % 4 != 2 {
        return Err(Refusal::FrameType);
    }
    let slot = bursts::burst::slot_type(&datagram[20..])?;
    let datatype = datagram[15] % 16;
    if datatype != slot % 16 || Kind::from(datatype) == Kind::Other {
        return Err(Refusal::DataType);
    }
    let info = bursts::burst::field(&datagram[20..])?;
    Ok(Datagram {
        labels: labels_of(datagram),
        colour: slot / 16,
        datatype,
        info,
    })
}

// ---- writing

// Whether all labels are within their widths.
fn labels_fit(labels: Labels) -> bool
    ensures { result ≡ labels_fit labels }
{
    labels.source.fits() && labels.target.fits() && labels.timeslot < 2 && labels.call < 2
}

// The 20 octets before the burst. The data type stays a number, four bits of octet 15.
fn label_octets(labels: Labels, datatype: u8) -> [u8; 20]
    requires { (labels_fit labels ≡ true) × (datatype < 16) }
    ensures { result ≡ label_octets labels datatype }
{
    let p = b"DMRD";
    let s = labels.source.octets();
    let t = labels.target.octets();
    let n = labels.repeater.octets();
    let m = labels.stream.to_be_bytes();
    let octet = 128 * labels.timeslot + 64 * labels.call + 32 + datatype;
    [
        p[0],
        p[1],
        p[2],
        p[3],
        labels.sequence,
        s[0],
        s[1],
        s[2],
        t[0],
        t[1],
        t[2],
        n[0],
        n[1],
        n[2],
        n[3],
        octet,
        m[0],
        m[1],
        m[2],
        m[3],
    ]
}

// Writes a datagram with its burst. With wrong bits in the burst that the codes put right it comes back. The data type stays a number: any
// is taken, and refused as the burst's is.
pub fn write(
    labels: Labels,
    colour: u8,
    datatype: u8,
    info: [u8; 12],
    sync: Sync,
) -> Result<[u8; 53], Refusal>
    ensures gives { result ≡ datagram_octets_given (write_datagram labels colour datatype info sync) }
    ensures comes_back { IfOk result (λ octets. DatagramComesBack labels colour datatype info octets) }
{
    if !labels_fit(labels) {
        return Err(Refusal::Unwritable);
    }
    let burst = bursts::burst::write(colour, datatype, info, sync)?;
    let head = label_octets(labels, datatype);
    Ok(foundation::octets::joined(&head, &burst))
}
