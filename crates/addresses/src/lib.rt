// Radio addresses of 24 bits and repeater numbers of 32: two types, so that one is never taken for the other.
#![tactic(auto)]

ghost use Rattle.std.specs.Prelude.{◌≡◌, ◌^◌, ltb};
ghost use Rattle.addresses.specs.Octets.{three_octets, four_octets, address_at, number_at};

use foundation::octets;

// A radio address. It has 24 bits where fits says so.
#[derive(Clone, Copy, Debug, PartialEq, Eq)]
pub struct RadioAddress(pub u32);

impl RadioAddress {
    // Whether an address has 24 bits.
    pub fn fits(self) -> bool
        ensures { result ≡ ltb self.0 (2 ^ 24) }
    {
        self.0 < 0x100_0000
    }

    // The three octets of an address, most significant first.
    pub fn octets(self) -> [u8; 3]
        ensures { result ≡ three_octets self.0 }
    {
        let [_, high, middle, low] = self.0.to_be_bytes();
        [high, middle, low]
    }
}

// The address of three octets, most significant first.
impl From<[u8; 3]> for RadioAddress {
    ghost from_gives = { λ octets a. a ≡ address_at octets 0 };

    fn from(octets: [u8; 3]) -> RadioAddress {
        let [a, b, c] = octets;
        RadioAddress(u32::from_be_bytes([0, a, b, c]))
    }
}

// A repeater number, of 32 bits.
#[derive(Clone, Copy, Debug, PartialEq, Eq)]
pub struct RepeaterNumber(pub u32);

impl RepeaterNumber {
    // The four octets of a number, most significant first.
    pub fn octets(self) -> [u8; 4]
        ensures { result ≡ four_octets self.0 }
    {
        self.0.to_be_bytes()
    }
}

// The repeater number of four octets, most significant first.
impl From<[u8; 4]> for RepeaterNumber {
    ghost from_gives = { λ octets n. n.0 ≡ number_at octets 0 };

    fn from(octets: [u8; 4]) -> RepeaterNumber {
        RepeaterNumber(u32::from_be_bytes(octets))
    }
}

// ---- at a place of a slice: octets past the end are 0

// The address in three octets from a place on.
pub fn address_at(octets: &[u8], at: usize) -> RadioAddress
    ensures { result ≡ address_at octets.now at }
{
    let o = octets::rest(octets, at);
    RadioAddress::from([octets::at(o, 0), octets::at(o, 1), octets::at(o, 2)])
}

// The number in four octets from a place on.
pub fn number_at(octets: &[u8], at: usize) -> u32
    ensures { result ≡ number_at octets.now at }
{
    let o = octets::rest(octets, at);
    u32::from_be_bytes([
        octets::at(o, 0),
        octets::at(o, 1),
        octets::at(o, 2),
        octets::at(o, 3),
    ])
}
