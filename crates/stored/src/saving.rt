// Saving a receiver in its stored form.
ghost use Rattle.std.specs.Prelude.{◌≡◌, ◌∷◌, [], ◌+◌, ◌/◌, ◌%◌, ◌≤◌, length, take, drop};
ghost use Rattle.checks.specs.Checks.{header_check};
ghost use Rattle.stored.specs.Stored.{stored_block, checked_size, head0, save_number, after_save};
ghost use Rattle.stored.specs.Claims.{Savable, Restores};
ghost use Rattle.foundation.specs.Octets.{put};
ghost use Rattle.foundation.specs.Refusals.{outcome};

use crate::stamp::Stamp;
use foundation::refusal::Refusal;
use receiver_state::{Receiver, STORE};

// Octets of a stored block, of a stored form, and of a block before its check.
pub const STORED_BLOCK: usize = 512;

pub const FORM: usize = 2 * STORED_BLOCK;

pub const CHECKED: usize = STORED_BLOCK - 2;

// Octets of the store in block 0 and in block 1, and where they begin.
pub const FIRST_PART: usize = 487;

pub const SECOND_PART: usize = STORE - FIRST_PART;

pub const STORE_AT_0: usize = CHECKED - FIRST_PART;

pub const STORE_AT_1: usize = 4;

// The zeros behind the store in block 1.
pub const ZEROS_AT: usize = STORE_AT_1 + SECOND_PART;

pub const ZEROS: usize = CHECKED - ZEROS_AT;

// The check of the 510 octets of a block, written behind them.
fn check_at(to: &mut [u8], at: usize)
    requires { at + stored_block ≤ length to.old }
    ensures { to.new ≡ put to.old (at + checked_size)
        (header_check 0 (take checked_size (drop at to.old)) / 256 ∷ header_check 0 (take checked_size (drop at to.old)) % 256 ∷ []) }
{
    let end = at + CHECKED;
    let octets = checks::header(0, &to[at..end]).to_be_bytes();
    foundation::octets::put(to, end, &octets);
}

// The first 23 octets of block 0.
fn head(rx: Receiver, stamp: Stamp) -> [u8; 23]
    ensures { result ≡ head0 rx.own rx.phase rx.transaction rx.flags.octets stamp.high stamp.low }
{
    let t = rx.transaction;
    let own = rx.own.octets();
    let source = t.source.octets();
    let f = rx.flags.octets;
    [
        1, 0, stamp.high, stamp.low, rx.phase, own[0], own[1], own[2], source[0], source[1],
        source[2], t.sap, t.ns, t.pad, t.blocks, f[0], f[1], f[2], f[3], f[4], f[5], f[6], f[7],
    ]
}

// The stored form of a receiver and its store, with a stamp; refused for a receiver that there can't be or another size.
pub fn save(rx: Receiver, store: &[u8], stamp: Stamp, form: &mut [u8]) -> Result<(), Refusal>
    ensures { (result ≡ outcome (save_number rx store.now form.old) tt)
        × (form.new ≡ after_save rx store.now stamp.high stamp.low form.old)
        × (Savable rx store.now → Restores rx store.now stamp.high stamp.low) }
{
    let Some(store) = store.as_array::<STORE>() else {
        return Err(Refusal::Size);
    };
    if !receiver_state::is_good(rx) || form.len() != FORM {
        return Err(Refusal::Size);
    }
    let held = crate::held_store(rx.flags, store);
    let first = head(rx, stamp);
    foundation::octets::put(form, 0, &first);
    foundation::octets::put(form, STORE_AT_0, &held[..FIRST_PART]);
    check_at(form, 0);
    let second = [1, 1, stamp.high, stamp.low];
    foundation::octets::put(form, STORED_BLOCK, &second);
    foundation::octets::put(form, STORED_BLOCK + STORE_AT_1, &held[FIRST_PART..]);
    let zeros = [0u8; ZEROS];
    foundation::octets::put(form, STORED_BLOCK + ZEROS_AT, &zeros);
    check_at(form, STORED_BLOCK);
    Ok(())
}
