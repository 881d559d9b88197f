// again: lists a stream as npalist does, without the heading, and then what comes after it as another stream, by the
// listing that the first has left.

#![tactic(auto)]

use arrayvec::ArrayVec;
use listing::steps::{LINES_BYTES, Listing};
use standard::run;

fn main() {
    let mut listing = Listing::new();
    let mut out = ArrayVec::<u8, LINES_BYTES>::new();
    run(&mut listing, &mut out);
    run(&mut listing, &mut out);
}
