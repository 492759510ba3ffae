// A capture that is read, listed as it comes: what the programs gateway and delivered have in common.
#![tactic(auto)]

ghost use Rattle.std.specs.Prelude.{◌≡◌, ◌≤◌, length, take};
ghost use Rattle.captures.specs.Lines.{closing};
ghost use Rattle.captures.specs.Captures.{running, printed};
ghost use Rattle.listings.specs.Listings.{WritesListing, ListsKnown, ListsAll};

use captures::{Gateway, Listing};
use counting::Counts;
use inputs::printing;
use inputs::printing::{ADDRESS, END, Ended, Failed, Printed, Printer, TEXT};
use receiver_state::STORE;
use std::io::{Read, Write};

// What is listed, and the gateway and its store after the datagrams that are answered.
#[derive(Drop)]
struct Lister {
    listing: Listing,
    gateway: Gateway,
    store: [u8; STORE],
}

impl Printer for Lister {
    ghost whole = { λ s. printed s.listing (running s.gateway s.store) };

    fn answer(&mut self, octets: &[u8], last: bool, text: &mut [u8; TEXT]) -> Printed {
        let listed = captures::list(
            self.listing,
            self.gateway,
            &mut self.store,
            octets,
            last,
            text,
        )
        .unwrap();
        self.gateway = listed.gateway;
        Printed {
            taken: listed.taken,
            end: listed.end,
        }
    }

    fn close(&self, text: &mut [u8; END]) -> usize {
        close(self.listing, self.gateway.counts, text)
    }
}

// The last line, in front. (Behind a reference nothing would say how long the numbers of the counts can get.)
fn close(listing: Listing, c: Counts, text: &mut [u8]) -> usize
    requires { 67 ≤ length text.old }
    ensures { (result ≤ length text.new) × (take result text.new ≡ closing listing c) }
{
    listing.close(c, text)
}

// Reads what is behind the own address and writes the listing. Where the address is cut short there is nothing but the last line.
pub fn run<R: Read, W: Write>(
    from: &mut R,
    to: &mut W,
    listing: Listing,
    own: &[u8],
) -> Result<Ended, Failed>
    ensures counted { WritesListing listing own.now result }
    ensures known { ListsKnown listing own.now result (R.remaining from.old) (W.contents to.old) (W.contents to.new) }
{
    let mut lister = Lister {
        listing,
        gateway: captures::start(own),
        store: [0; STORE],
    };
    printing::run_behind(from, to, own, &mut lister)
}

// The same for an own address that is read too. (The program replay has the like: to pass these three lines a closure for what runs would be no
// shorter.)
pub fn list<R: Read, W: Write>(from: &mut R, to: &mut W, listing: Listing) -> Result<Ended, Failed>
    ensures { ListsAll listing result (R.remaining from.old) (W.contents to.old) (W.contents to.new) }
{
    let mut own = [0; ADDRESS];
    let size = inputs::fill(from, &mut own)?;
    run(from, to, listing, &own[..size])
}
