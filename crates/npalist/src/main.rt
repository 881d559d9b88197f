// npalist: reads an opening block and interval files from standard input, settles them, and prints a listing.

#![tactic(auto)]

use arrayvec::ArrayVec;
use listing::lines::put_heading;
use listing::steps::{LINES_BYTES, Listing};
use standard::{print, run_from_beginning};

fn main() {
    let mut listing = Listing::new();
    let mut out = ArrayVec::<u8, LINES_BYTES>::new();
    put_heading(&mut out);
    if print(out.as_slice()) {
        run_from_beginning(&mut listing, &mut out);
    }
}
