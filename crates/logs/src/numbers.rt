// The numbers of a log: the kinds of its records, and the codes of the lines that answer them.
ghost use Rattle.std.specs.Prelude.{◌≡◌};
ghost use Rattle.logs.specs.Numbers.{kind_of, code_number, code_at};

// What a record is. The discriminant is the octet that stands for it; every octet without one of its own is `Other`.
#[derive(Clone, Copy, Debug, PartialEq, Eq)]
pub enum Kind {
    Header = 0,
    Block = 1,
    End = 2,
    Restart = 3,
    Other = 255,
}

impl From<u8> for Kind {
    ghost from_gives = { λ number kind. kind ≡ kind_of number };

    #[tactic(auto, unfolding(crate::specs::Numbers::kind_of))]
    fn from(number: u8) -> Kind {
        match number {
            0 => Kind::Header,
            1 => Kind::Block,
            2 => Kind::End,
            3 => Kind::Restart,
            _ => Kind::Other,
        }
    }
}

// What a line says.
#[derive(Clone, Copy, Debug, PartialEq, Eq)]
pub enum Code {
    Refused = 0,
    Opened = 1,
    Repeat = 2,
    Stored = 3,
    Bad = 4,
    Message = 5,
    Response = 6,
    Restored = 7,
}

impl Code {
    // The octet of a line, from which the code comes back.
    #[tactic(auto, unfolding(crate::specs::Numbers::code_number, crate::specs::Numbers::code_at))]
    pub fn number(self) -> u8
        ensures gives { result ≡ code_number self }
        ensures comes_back { code_at result ≡ self }
    {
        self as u8
    }
}

// No line has another octet; it would be taken for that of a restored form.
impl From<u8> for Code {
    ghost from_gives = { λ number code. code ≡ code_at number };

    #[tactic(auto, unfolding(crate::specs::Numbers::code_at))]
    fn from(number: u8) -> Code {
        match number {
            0 => Code::Refused,
            1 => Code::Opened,
            2 => Code::Repeat,
            3 => Code::Stored,
            4 => Code::Bad,
            5 => Code::Message,
            6 => Code::Response,
            _ => Code::Restored,
        }
    }
}
