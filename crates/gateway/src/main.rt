// Reads the own address (3 octets) and then datagrams of 53 from standard input. For each a line with its index from 0 and its number, 0
// for none; leftover octets are one more datagram. Then `end` with the numbers of datagrams, messages and refusals.
#![tactic(auto)]

use captures::Listing;
use inputs::programs;
use std::env::Env;

// The same in delivered, but for two words: a program has its own main.
fn main(rt: HostRuntime) {
    if programs::called_alone(&rt, rt.arg(1, &mut [0; 1]), "gateway", "CAPTURE") {
        let done = listings::list(&mut rt.stdin(), &mut rt.stdout(), Listing::Numbers);
        programs::came_to_its_end(&rt, "gateway", done);
    }
}
