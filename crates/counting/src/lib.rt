// The counts that the gateway prints: datagrams, messages handed on and refusals, over the answers that it gave.
#![tactic(auto)]

ghost use Rattle.std.specs.Prelude.{◌≡◌, ℕ, [], ◌∷◌, IfErr};
ghost use Rattle.foundation.specs.Refusals.{refusal_number};
ghost use Rattle.counting.specs.Counts.{told_by, answer_number, is_message, is_refused, counts_of, CountsOn};
ghost use Rattle.counting.specs.Counts.{counted as Counts·counted};
ghost use Rattle.reception.specs.Reception.{Refused, Confirmed};

use foundation::refusal::Refusal;
use receiver::event::Answer;

#[derive(Clone, Copy, Debug, PartialEq, Eq)]
pub struct Counts {
    pub datagrams: u64,
    pub messages: u64,
    pub refused: u64,
}

// What a refusal is told by: its number, whether the table has it or not.
pub trait Numbered {
    ghost number: { Self → ℕ };

    fn number(self) -> u8
        ensures { result ≡ number self };
}

impl Numbered for Refusal {
    ghost number = { refusal_number };

    fn number(self) -> u8 {
        Refusal::number(self)
    }
}

// Any number by itself.
impl Numbered for u8 {
    ghost number = { λ n. n };

    fn number(self) -> u8 {
        self
    }
}

// The number of an answer, 0 for none: a listing prints that 0, so an Option would be undone where it is taken. Whether a refusal came before
// any receiver makes no difference.
pub fn number_of<E: Numbered>(a: Result<Answer, E>) -> u8
    ensures number { result ≡ answer_number (Confirmed (told_by E.number a)) }
    ensures before_any { IfErr a (λ e. result ≡ answer_number (Refused (E.number e))) }
{
    match a {
        Ok(_) => 0,
        Err(refusal) => refusal.number(),
    }
}

// The counts before the first answer.
pub fn none() -> Counts
    ensures { result ≡ counts_of [] }
{
    Counts {
        datagrams: 0,
        messages: 0,
        refused: 0,
    }
}

// The counts with one answer more, of a refusal wherever it came from.
#[tactic(auto, using(crate::proofs::Counting::counts_on), unfolding(crate::specs::Counts::counted, crate::specs::Counts::is_message, crate::specs::Counts::hands_on, crate::specs::Counts::is_refused, crate::specs::Counts::refuses, reception::specs::Reception::said, receiver::specs::Events::said))]
pub fn counted<E: Numbered + Drop>(c: Counts, a: Result<Answer, E>) -> Counts
    ensures counts { result ≡ Counts·counted c (Confirmed (told_by E.number a)) }
    ensures goes_on { CountsOn (Confirmed (told_by E.number a) ∷ []) }
    ensures before_any { IfErr a (λ e. (result ≡ Counts·counted c (Refused (E.number e))) × CountsOn (Refused (E.number e) ∷ [])) }
{
    let datagrams = c.datagrams.wrapping_add(1);
    match a {
        Ok(Answer::Message(_)) => Counts {
            datagrams,
            messages: c.messages.wrapping_add(1),
            ..c
        },
        Ok(Answer::Opened | Answer::Repeat | Answer::Stored | Answer::Bad) => Counts {
            datagrams,
            ..c
        },
        Err(_) => Counts {
            datagrams,
            refused: c.refused.wrapping_add(1),
            ..c
        },
    }
}
