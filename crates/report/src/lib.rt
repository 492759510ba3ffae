// The lines of a program that runs worked examples, and their count.
#![tactic(auto)]

ghost use Rattle.std.specs.Prelude.{◌≡◌, ℕ, Bool, true, List, None, IsSome};
ghost use Rattle.report.specs.Counted.{Counted, SameCounts};

use std::io::{Error, Write};

// How many cases have run, how many of them went wrong, and why something that was to be written could not be, the last time.
#[derive(Clone, Copy)]
pub struct Tally {
    pub cases: u32,
    pub wrong: u32,
    pub failed: Option<Error>,
}

// What the lines are written to, and their count.
#[derive(Drop)]
pub struct Report<W> {
    out: W,
    pub tally: Tally,
}

// The value of a case, as its line has it.
#[derive(Clone, Copy)]
enum Value<'a> {
    // A number in at least so many hexadecimal digits.
    Number { value: u32, digits: usize },
    // Octets stand close, in hexadecimal.
    Octets(&'a [u8]),
    // Positions stand apart, in decimal.
    Positions(&'a [u8]),
}

impl<W: Write> Report<W> {
    pub fn new(out: W) -> Report<W>
        ensures { (result.tally.cases ≡ 0) × (result.tally.wrong ≡ 0) × (result.tally.failed ≡ None) }
    {
        Report {
            out,
            tally: Tally {
                cases: 0,
                wrong: 0,
                failed: None,
            },
        }
    }

    // A piece of a line. What could not be written once stays so, and the pieces behind it are written all the same.
    fn put(&mut self, piece: &[u8])
        ensures { SameCounts self.old.tally self.new.tally }
    {
        let error = self.out.write_all(piece).err();
        self.tally.failed = error.or(self.tally.failed);
    }

    fn put_hex(&mut self, value: u32, digits: usize)
        ensures { SameCounts self.old.tally self.new.tally }
    {
        let mut text = [0u8; 16];
        let size = io::hex(u64::from(value), digits, &mut text);
        self.put(&text[..size]);
    }

    fn put_decimal(&mut self, value: u32)
        ensures { SameCounts self.old.tally self.new.tally }
    {
        let mut text = [0u8; 20];
        let size = io::decimal(u64::from(value), &mut text);
        self.put(&text[..size]);
    }

    fn put_value(&mut self, value: Value)
        ensures { SameCounts self.old.tally self.new.tally }
    {
        match value {
            Value::Number { value, digits } => self.put_hex(value, digits),
            Value::Octets(octets) => self.put_octets(octets),
            Value::Positions(positions) => self.put_positions(positions),
        }
    }

    fn put_octets(&mut self, octets: &[u8])
        ensures { SameCounts self.old.tally self.new.tally }
    {
        for octet in octets {
            self.put_hex(u32::from(*octet), 2);
        }
    }

    fn put_positions(&mut self, positions: &[u8])
        ensures { SameCounts self.old.tally self.new.tally }
    {
        for (i, position) in positions.iter().enumerate() {
            if i > 0 {
                self.put(b" ");
            }
            self.put_decimal(u32::from(*position));
        }
    }

    fn count(&mut self, right: bool)
        ensures { Counted Bool right true self.old.tally self.new.tally }
    {
        self.tally.cases = self.tally.cases.wrapping_add(1);
        if !right {
            self.tally.wrong = self.tally.wrong.wrapping_add(1);
        }
    }

    // The line of a case: its name, what was computed, and of what; and what it should be.
    fn case(&mut self, subject: &[u8], text: &[u8], right: bool, value: Value, expected: Value)
        ensures { Counted Bool right true self.old.tally self.new.tally }
    {
        self.put(subject);
        self.put(text);
        self.put(b": ");
        self.put_value(value);
        if right {
            self.put(b" ok\n");
        } else {
            self.put(b" wrong, not ");
            self.put_value(expected);
            self.put(b"\n");
        }
        self.count(right);
    }

    // A case whose value is a number, in at least so many hexadecimal digits. Subject and text are two halves of its name: callers have the one
    // for many cases and the other for one, and joined they would want a heap.
    pub fn number(&mut self, subject: &[u8], text: &[u8], digits: usize, value: u32, expected: u32)
        ensures { Counted ℕ value expected self.old.tally self.new.tally }
    {
        let hex = |value| Value::Number { value, digits };
        self.case(subject, text, value == expected, hex(value), hex(expected));
    }

    // A case whose value is yes or no, as 1 or 0.
    pub fn answer(&mut self, subject: &[u8], text: &[u8], value: bool, expected: bool)
        ensures { Counted Bool value expected self.old.tally self.new.tally }
    {
        self.number(subject, text, 1, u32::from(value), u32::from(expected));
    }

    // A case whose value is a run of octets.
    pub fn octets(&mut self, subject: &[u8], text: &[u8], value: &[u8], expected: &[u8])
        ensures { Counted (List ℕ) value.now expected.now self.old.tally self.new.tally }
    {
        self.case(
            subject,
            text,
            value == expected,
            Value::Octets(value),
            Value::Octets(expected),
        );
    }

    // A case whose value is a run of positions.
    pub fn positions(&mut self, subject: &[u8], text: &[u8], value: &[u8], expected: &[u8])
        ensures { Counted (List ℕ) value.now expected.now self.old.tally self.new.tally }
    {
        self.case(
            subject,
            text,
            value == expected,
            Value::Positions(value),
            Value::Positions(expected),
        );
    }

    // The last line. It changes no count.
    pub fn close(&mut self)
        ensures { (self.new.tally.cases ≡ self.old.tally.cases) × (self.new.tally.wrong ≡ self.old.tally.wrong)
            × (IsSome self.old.tally.failed → IsSome self.new.tally.failed) }
    {
        self.put_decimal(self.tally.cases);
        self.put(b" cases, ");
        self.put_decimal(self.tally.wrong);
        self.put(b" wrong\n");
    }
}
