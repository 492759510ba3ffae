// The stamp of a stored form, a number of 16 bits: both of its blocks have it behind their first two octets.
ghost use Rattle.std.specs.Prelude.{◌≡◌, ◌/◌, ◌%◌};

// A stamp's two octets, in the order in which a stored form has them.
#[derive(Clone, Copy, Debug, PartialEq, Eq)]
pub struct Stamp {
    pub high: u8,
    pub low: u8,
}

impl From<u16> for Stamp {
    ghost from_gives = { λ number stamp. (stamp.high ≡ number / 256) × (stamp.low ≡ number % 256) };

    fn from(number: u16) -> Stamp {
        let [high, low] = number.to_be_bytes();
        Stamp { high, low }
    }
}
