// Fields, in the octets and numbers that callers in C have them in.
ghost use Rattle.std.specs.Prelude.{◌≡◌, [], ◌∷◌, ◌++◌};
ghost use Rattle.layouts.specs.Layouts.{sync_of, reply_of, delivery_of, field_octets, header_octets, label_layout};

use addresses::RadioAddress;
use bursts::burst::Sync;
use datagrams::Labels;
use messages::message::Delivery;
use messages::response::Reply;
use packets::header::{Common, Header};

// ---- given

// C's number: 0 is the base's, any other the mobile's. No From: the numbering is C's alone.
pub fn sync_of(sync: u8) -> Sync
    ensures { result ≡ sync_of sync }
{
    match sync {
        0 => Sync::Base,
        _ => Sync::Mobile,
    }
}

// C's number: 0 is ACK, 1 NACK, any other SACK. No From: the numbering is C's alone.
pub fn reply_of(reply: u8) -> Reply
    ensures { result ≡ reply_of reply }
{
    match reply {
        0 => Reply::Ack,
        1 => Reply::Nack,
        _ => Reply::Sack,
    }
}

// C's four arguments as one. No From, as above.
#[tactic(auto, unfolding(crate::specs::Layouts::delivery_of))]
pub fn delivery(sap: u8, ns: u8, destination: u32, source: u32) -> Delivery
    ensures { result ≡ delivery_of sap ns destination source }
{
    Delivery {
        sap,
        ns,
        destination: RadioAddress(destination),
        source: RadioAddress(source),
    }
}

// ---- given back

// The 17 octets of labels, and two behind them. C gets the data type as a number.
pub fn label_octets(labels: Labels, colour: u8, datatype: u8) -> [u8; 19]
    ensures { result ≡ label_layout labels ++ colour ∷ datatype ∷ [] }
{
    let s = labels.source.octets();
    let t = labels.target.octets();
    let n = labels.repeater.octets();
    let m = labels.stream.to_be_bytes();
    [
        labels.sequence,
        s[0],
        s[1],
        s[2],
        t[0],
        t[1],
        t[2],
        n[0],
        n[1],
        n[2],
        n[3],
        labels.timeslot,
        labels.call,
        m[0],
        m[1],
        m[2],
        m[3],
        colour,
        datatype,
    ]
}

// The 16 octets of a header's fields. C gets the format as a number.
fn field_octets(format: u8, c: Common, x: u8, y: u8, z: u8) -> [u8; 16]
    ensures { result ≡ field_octets format c x y z }
{
    let to = c.destination.octets();
    let from = c.source.octets();
    [
        format,
        c.group,
        c.requested,
        c.pad,
        c.sap,
        to[0],
        to[1],
        to[2],
        from[0],
        from[1],
        from[2],
        c.full,
        c.blocks,
        x,
        y,
        z,
    ]
}

// The same, by format.
pub fn header_octets(h: Header) -> [u8; 16]
    ensures { result ≡ header_octets h }
{
    match h {
        Header::Response(c, class, kind, status) => field_octets(1, c, class, kind, status),
        Header::Unconfirmed(c, fsn) => field_octets(2, c, fsn, 0, 0),
        Header::Confirmed(c, s, ns, fsn) => field_octets(3, c, s, ns, fsn),
    }
}
