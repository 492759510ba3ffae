// Text in lent memory, written part behind part. Where a part has no room nothing of it is written.
#![tactic(auto)]

ghost use Rattle.std.specs.Prelude.{◌≡◌, ◌+◌, ◌-◌, ◌*◌, ◌≤◌, ◌<◌, length};
ghost use Rattle.io.specs.Digits.{hex_digit_ascii};
ghost use Rattle.foundation.specs.Octets.{put};
ghost use Rattle.texts.specs.Texts.{decimal, hexadecimal, octets_text, Writes};

// The most digits of a number of 64 bits.
const DIGITS: usize = 20;

// Lent memory, and where the text in it ends.
#[derive(Drop)]
pub struct Writer<'a> {
    pub text: &'a mut [u8],
    pub end: usize,
}

impl<'a> Writer<'a> {
    // No text yet, at the start of the memory.
    pub fn new(text: &'a mut [u8]) -> Writer<'a>
        ensures { (result.text.ghost_name ≡ text.entry.ghost_name) × (result.text.now ≡ text.old) × (result.end ≡ 0) }
    {
        Writer { text, end: 0 }
    }

    // Octets as they are.
    pub fn word(&mut self, word: &[u8])
        ensures { Writes word.now self.old self.new }
    {
        if word.len() <= self.room() {
            foundation::octets::put(self.text, self.end, word);
            self.end += word.len();
        }
    }

    // A number in decimal.
    pub fn decimal(&mut self, n: u64)
        ensures { Writes (decimal n) self.old self.new }
    {
        let mut digits = [0u8; DIGITS];
        let k = io::decimal(n, &mut digits);
        self.word(&digits[..k])
    }

    // Octets in hexadecimal, `-` for none.
    pub fn octets(&mut self, octets: &[u8])
        ensures { Writes (octets_text octets.now) self.old self.new }
    {
        if octets.is_empty() {
            return self.word(b"-");
        }
        let size = 2 * octets.len();
        if size <= self.room() {
            put_digits(self.text, self.end, octets);
            self.end += size;
        }
    }

    // How many octets more the memory has room for.
    fn room(&self) -> usize
        ensures { result ≡ length self.now.text.now - self.now.end }
    {
        self.text.len().saturating_sub(self.end)
    }
}

// A hexadecimal digit.
fn digit(d: u8) -> u8
    requires { d < 16 }
    ensures { result ≡ hex_digit_ascii d }
{
    if d < 10 { b'0' + d } else { b'a' + (d - 10) }
}

// Two digits an octet, where there is room. No method: of the writer it needs the memory alone, and its one caller moves the end on.
fn put_digits(text: &mut [u8], at: usize, octets: &[u8])
    requires { at + 2 * length octets.now ≤ length text.old }
    ensures { text.new ≡ put text.old at (hexadecimal octets.now) }
{
    for (i, octet) in octets.iter().enumerate() {
        text[at + 2 * i] = digit(octet / 16);
        text[at + 2 * i + 1] = digit(octet % 16);
    }
}
