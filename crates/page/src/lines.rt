// The lines of a plant's page: a row's and the year's.

ghost use Rattle.std.specs.Prelude.{◌≡◌, map, ◌+◌, ◌≤◌, ◌<◌, ◌^◌, MatchOption};
ghost use Rattle.arrayvec.specs.ArrayVec.{array_vec_len};
ghost use Rattle.reading.specs.Interval.{rows_of};
ghost use Rattle.ledger.specs.Values.{before};
ghost use Rattle.listing.specs.Lines.{Line, bytes_of_line};
ghost use Rattle.listing.specs.Code.{Puts, year_in};
ghost use Rattle.listing.specs.Room.{year_room};
ghost use Rattle.page.specs.Page.{year_of};

use crate::account::plant_account;
use arrayvec::ArrayVec;
use assessment::account::limit;
use assessment::units::{Kilowatts, Quantity};
use ledger::ground_six::Ledger;
use listing::lines::{YearFigures, put_year_line};
use reading::file::File;
use settling::result::Balance;

// A plant, and the shortfall and the bonus that its lines add up to.
#[derive(Clone, Copy)]
pub struct Page {
    pub id: u64,
    pub shortfall: Kilowatts,
    pub bonus: Kilowatts,
}

impl Page {
    // A page without lines.
    pub fn empty(id: u64) -> Page
        ensures id_value { result.id ≡ id }
        ensures shortfall_value { result.shortfall.0 ≡ 0 }
        ensures bonus_value { result.bonus.0 ≡ 0 }
    {
        Page {
            id,
            shortfall: Kilowatts(0),
            bonus: Kilowatts(0),
        }
    }

    // The page with one line more.
    pub fn with(self, b: Balance) -> Page
        requires shortfall_bound { self.shortfall.0 + b.shortfall.0 < 2 ^ 64 }
        requires bonus_bound { self.bonus.0 + b.bonus.0 < 2 ^ 64 }
        ensures id_value { result.id ≡ self.id }
        ensures shortfall_value { result.shortfall.0 ≡ self.shortfall.0 + b.shortfall.0 }
        ensures bonus_value { result.bonus.0 ≡ self.bonus.0 + b.bonus.0 }
    {
        Page {
            id: self.id,
            shortfall: self.shortfall.plus(b.shortfall),
            bonus: self.bonus.plus(b.bonus),
        }
    }
}

// The place of the row with an id among a file's rows, if one has it.
pub fn row_of(file: &File<'_>, id: u64) -> Option<usize>
    ensures { let place = before id (map (λ w. w.id) (rows_of file.now.bytes.now)) in
        MatchOption result (place ≡ file.now.header.rows) (λ i. (i ≡ place) × (i < file.now.header.rows)) }
{
    for i in 0..file.header.rows {
        let row = file.row(i);
        if row.id == id {
            return Some(i);
        }
    }
    None
}

// What the year line says, by the sums of the lines above it and the plant's account.
fn year_figures(page: Page, ledger: Ledger) -> YearFigures
    ensures { year_in result ≡ year_of page.id page.shortfall.0 page.bonus.0 ledger.entry.bytes.now }
{
    let terms = ledger.standing.terms;
    let account = plant_account(ledger, page.id);
    let shortfall = page.shortfall;
    let bonus = page.bonus;
    let charged = account.charged;
    let credited = account.credited;
    YearFigures {
        id: page.id,
        shortfall,
        bonus,
        charged,
        credited,
        limit: limit(terms, account.largest),
    }
}

// Puts the year line. What is left of a buffer changes with each line, so that no type holds the room.
pub fn put_year<const ROOM: usize>(out: &mut ArrayVec<u8, ROOM>, page: Page, ledger: Ledger)
    requires { array_vec_len out.old + year_room ≤ ROOM }
    ensures { let year = year_of page.id page.shortfall.0 page.bonus.0 ledger.entry.bytes.now in
        Puts out.old (bytes_of_line (Line.year year)) year_room out.new }
{
    put_year_line(out, year_figures(page, ledger));
}
