// What is given back through lent memory.
ghost use Rattle.std.specs.Prelude.{◌++◌, ◌+◌, length};
ghost use Rattle.layouts.specs.Lent.{answer_of, Gives};

use foundation::octets::put;
use foundation::refusal::Refusal;

// The number of a wrong size.
const SIZE: u8 = Refusal::Size as u8;

// The answer of a number and octets in two parts. 1 where the lent memory has another size than both.
pub fn give_both(out: &mut [u8], number: u8, head: &[u8], tail: &[u8]) -> u8
    ensures { Gives (length head.now + length tail.now) (number, head.now ++ tail.now) out.old result out.new }
{
    if out.len() < head.len() {
        return SIZE;
    }
    if out.len() - head.len() != tail.len() {
        return SIZE;
    }
    if number != 0 {
        return number;
    }
    put(out, 0, head);
    put(out, head.len(), tail);
    0
}

// The answer of a number and octets.
pub fn give(out: &mut [u8], number: u8, octets: &[u8]) -> u8
    ensures { Gives (length octets.now) (number, octets.now) out.old result out.new }
{
    give_both(out, number, octets, b"")
}

// The answer of what the library gives: its octets and 0, or the number of the refusal, whose zeros say only which size is wanted.
pub fn give_result<const N: usize>(out: &mut [u8], given: Result<[u8; N], Refusal>) -> u8
    ensures { Gives N (answer_of given.entry) out.old result out.new }
{
    match given {
        Ok(octets) => give(out, 0, &octets),
        Err(refusal) => give(out, refusal.number(), &[0; N]),
    }
}
