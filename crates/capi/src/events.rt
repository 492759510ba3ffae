// The receiver, for C: its state is its stored form. A stamp has its most significant octet first.
ghost use Rattle.std.specs.Prelude.{◌≡◌, ◌/◌, ◌%◌};
ghost use Rattle.foundation.specs.Refusals.{number_given};
ghost use Rattle.history.specs.History.{header, block, ended};
ghost use Rattle.forms.specs.Forms.{fresh_number, after_fresh, an_event, a_datagram};
ghost use Rattle.capi.specs.Events.{address_of, Acts};

use addresses::RadioAddress;
use foundation::refusal::number_of;
use stored::stamp::Stamp;

// The stored form of a fresh receiver.
#[unsafe(no_mangle)]
pub extern "C" fn kirruskabe_fresh(own: u32, stamp: u16, form: &mut [u8]) -> u8
    ensures { (result ≡ fresh_number (address_of own) form.old)
        × (form.new ≡ after_fresh (address_of own) (stamp / 256) (stamp % 256) form.old) }
{
    number_of(&forms::fresh_form(RadioAddress(own), Stamp::from(stamp), form))
}

// The octets of a datagram.
#[unsafe(no_mangle)]
pub extern "C" fn kirruskabe_on_datagram(
    form: &mut [u8],
    stamp: u16,
    datagram: &[u8],
    line: &mut [u8],
) -> u8
    ensures { Acts (a_datagram datagram.now) stamp form.old line.old result form.new line.new }
{
    number_of(&forms::on_datagram(form, Stamp::from(stamp), datagram, line))
}

// The octets of a header.
#[unsafe(no_mangle)]
pub extern "C" fn kirruskabe_on_header(
    form: &mut [u8],
    stamp: u16,
    octets: &[u8],
    line: &mut [u8],
) -> u8
    ensures { Acts (an_event (header octets.now)) stamp form.old line.old result form.new line.new }
{
    number_of(&forms::on_header(form, Stamp::from(stamp), octets, line))
}

// The octets of a block.
#[unsafe(no_mangle)]
pub extern "C" fn kirruskabe_on_block(
    form: &mut [u8],
    stamp: u16,
    octets: &[u8],
    line: &mut [u8],
) -> u8
    ensures { Acts (an_event (block octets.now)) stamp form.old line.old result form.new line.new }
{
    number_of(&forms::on_block(form, Stamp::from(stamp), octets, line))
}

// An end of attempt.
#[unsafe(no_mangle)]
pub extern "C" fn kirruskabe_on_end(form: &mut [u8], stamp: u16, line: &mut [u8]) -> u8
    ensures { Acts (an_event ended) stamp form.old line.old result form.new line.new }
{
    number_of(&forms::on_end(form, Stamp::from(stamp), line))
}
