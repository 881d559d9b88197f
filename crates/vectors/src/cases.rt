// A case: a file of up to three rows, settled into a ledger of plants 1, 2 and 3 by the calls that C makes.
// What a refused call leaves is shown too: a ledger to be opened and a result begin with every byte 255.

ghost use Rattle.std.specs.Prelude.{◌≤◌, ◌<◌, length};
ghost use Rattle.figures.specs.Room.{case_points, case_rows};

use figures::layout::{Point, Row};
use npa::{npa_open, npa_settle};
use words::{Word, store};

// The words of a row in the result that are shown, by their places.
#[derive(Clone, Copy)]
pub enum RowWord {
    Actual = 1,
    Economic = 3,
    Shortfall = 4,
    Bonus = 5,
    Charge = 6,
    Credit = 7,
}

// The terms of a year.
#[derive(Clone, Copy)]
pub struct Terms {
    pub net_cone: u64,
    pub days: u64,
}

impl Terms {
    // A ledger that was opened on these terms.
    fn opened(self) -> [u8; 160] {
        let Terms { net_cone, days } = self;
        let mut block = [0u8; 32];
        let words = [1, net_cone, days, 3, 20, 1, 2, 3];
        store::<u32>(&words, &mut block);
        let mut ledger = [255u8; 160];
        npa_open(&block, &mut ledger);
        ledger
    }

    // A ledger in which plant 1 has a largest commitment and a charged sum, all of it carried.
    pub fn charged(self, largest: u64, cents: u64) -> [u8; 160] {
        let Terms { net_cone, days } = self;
        let mut ledger = [0u8; 160];
        let words = [
            1, net_cone, days, 0, cents, 3, 8, 0, 1, largest, cents, 0, 2, 0, 0, 0, 3, 0, 0, 0,
        ];
        store::<u64>(&words, &mut ledger);
        ledger
    }
}

// A file's terms, rows and points, and its interval.
#[derive(Clone, Copy)]
pub struct Case<'a> {
    terms: Terms,
    rows: &'a [Row],
    points: &'a [Point],
    interval: u64,
    ghost few_rows: { length rows.now ≤ case_rows },
    ghost few_points: { length points.now ≤ case_points },
}

impl<'a> Case<'a> {
    // The file of interval 0.
    pub fn of(terms: Terms, rows: &'a [Row], points: &'a [Point]) -> Case<'a>
        requires few_rows { length rows.now ≤ case_rows }
        requires few_points { length points.now ≤ case_points }
    {
        Case {
            terms,
            rows,
            points,
            interval: 0,
        }
    }

    // The same at an interval.
    pub fn at(self, interval: u64) -> Case<'a> {
        Case {
            terms: self.terms,
            rows: self.rows,
            points: self.points,
            interval,
        }
    }

    // The file's bytes: a header, the rows from byte 40, and the points after room for three rows.
    fn file(self) -> [u8; 288] {
        let Terms { net_cone, days } = self.terms;
        let interval = self.interval;
        let rows = self.rows.len() as u64;
        let points = self.points.len() as u64;
        let header = [1, interval, net_cone, days, 0, 0, rows, 40, points, 208];
        let mut file = [0u8; 288];
        let bytes = &mut file[..];
        store::<u32>(&header, bytes);
        store::<u32>(self.rows.as_flattened(), &mut bytes[40..]);
        store::<u32>(self.points.as_flattened(), &mut bytes[208..]);
        file
    }

    // What settling the file into a ledger leaves.
    pub fn settled_into(self, ledger: [u8; 160]) -> Settled {
        let mut books = ledger;
        let mut result = [255u8; 256];
        let answer = npa_settle(&mut books, &self.file(), &mut result);
        Settled {
            answer: u64::from(answer),
            ledger: books,
            result,
        }
    }

    // The same of a ledger that was opened on the file's terms.
    pub fn settled(self) -> Settled {
        self.settled_into(self.terms.opened())
    }
}

// What settling a file answers, 0 or the ground that refused it, and what it leaves.
#[derive(Clone, Copy)]
pub struct Settled {
    pub answer: u64,
    ledger: [u8; 160],
    result: [u8; 256],
}

impl Settled {
    // A word of a row.
    pub fn word(&self, row: usize, word: RowWord) -> u64
        requires { row < case_rows }
    {
        u64::number(&self.result, 64 + 64 * row + 8 * word as usize)
    }

    // The cents carried.
    pub fn carried(&self) -> u64 {
        u64::number(&self.ledger, 32)
    }
}
