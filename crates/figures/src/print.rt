// A label and its figures, one line each.

ghost use Rattle.std.specs.Prelude.{◌*◌, ◌≤◌, ◌<◌, length};
ghost use Rattle.arrayvec.specs.ArrayVec.{array_vec_len};
ghost use Rattle.figures.specs.Room.{label_room, most_figures};

use arrayvec::ArrayVec;
use listing::lines::{put_line, put_text, put_word_line};
use standard::print;

const LABEL_ROOM: usize = 64;

// A label, and eight figures of at most 20 digits and the byte after them.
const LINE_ROOM: usize = LABEL_ROOM + 8 * 21;

// A line that begins with a label, so that both are printed at once. A label may be of any length: one that would leave
// too little room for figures is printed first, by itself.
fn labelled(label: &[u8]) -> ArrayVec<u8, LINE_ROOM>
    ensures { array_vec_len result ≤ label_room }
{
    let mut line = ArrayVec::new();
    if LABEL_ROOM < label.len() {
        print(label);
    } else {
        put_text(&mut line, label);
    }
    line
}

// Prints a figure.
pub fn figure(label: &[u8], v: u64) {
    let mut line = labelled(label);
    put_line(&mut line, &[v]);
    print(line.as_slice());
}

// Prints the first n words of a ledger, a result or a part of one.
pub fn words(label: &[u8], b: &[u8], n: usize)
    requires some_word { 0 < n }
    requires few_words { n ≤ most_figures }
    requires words_in_bounds { 8 * n ≤ length b.now }
{
    let mut line = labelled(label);
    put_word_line(&mut line, b, n);
    print(line.as_slice());
}
