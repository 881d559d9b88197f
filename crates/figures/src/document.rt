// Document 01's listing: its rows, its opening block, and its file at an interval.

ghost use Rattle.std.specs.Prelude.{◌≡◌};
ghost use Rattle.ledger.specs.Figures.{listing_block};
ghost use Rattle.settling.specs.Figures.{listing_file};

use crate::layout::Point;
use words::store;

const BLOCK: [u64; 9] = [1, 30000, 365, 4, 20, 11, 12, 13, 14];

// Header, rows 11 to 14, and the points of the first three, one after the other; word 1 is the interval.
const FILE: [u64; 78] = [
    1, 0, 30000, 365, 0, 0, 4, 40, 6, 264, 11, 0, 100000, 110000, 60000, 0, 10000, 0, 110000,
    20000, 1, 3000, 0, 2, 12, 0, 50000, 60000, 20000, 5000, 0, 35000, 25000, 10000, 1, 6001, 2, 2,
    13, 4, 0, 40000, 35000, 0, 0, 0, 40000, 0, 1, 3000, 4, 2, 14, 1, 5000, 0, 15001, 0, 0, 0, 0, 0,
    0, 0, 0, 0, 1000, 20000, 5000, 100000, 1000, 10000, 6000, 50000, 0, 0, 4000, 40000,
];

// Curve A, and the curve of row 12.
pub const CURVE_11: [Point; 2] = [[1000, 20000], [5000, 100000]];

pub const CURVE_12: [Point; 2] = [[1000, 10000], [6000, 50000]];

pub fn block() -> [u8; 36]
    ensures { result ≡ listing_block }
{
    let mut block = [0u8; 36];
    store::<u32>(&BLOCK, &mut block);
    block
}

pub fn file(interval: u64) -> [u8; 312]
    ensures { result ≡ listing_file interval 0 0 }
{
    let mut words = FILE;
    words[1] = interval;
    let mut file = [0u8; 312];
    store::<u32>(&words, &mut file);
    file
}
