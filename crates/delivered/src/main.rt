// Reads the own address (3 octets) and then datagrams of 53 from standard input, as the program gateway does. For each message that is
// handed on a line with the index of the datagram that completes it, source, SAP, length and octets in hexadecimal; for each whose check is
// bad the index, the source and `bad`.
#![tactic(auto)]

use captures::Listing;
use inputs::programs;
use std::env::Env;

// The same in gateway, but for two words: a program has its own main.
fn main(rt: HostRuntime) {
    if programs::called_alone(&rt, rt.arg(1, &mut [0; 1]), "delivered", "CAPTURE") {
        let done = listings::list(&mut rt.stdin(), &mut rt.stdout(), Listing::Deliveries);
        programs::came_to_its_end(&rt, "delivered", done);
    }
}
