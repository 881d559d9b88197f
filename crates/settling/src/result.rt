// The result's words, written into the caller's buffer. No other module knows where a word of it stands.

#![tactic(auto, unfolding(crate::specs::Settling::result_bytes))]

ghost use Rattle.std.specs.Prelude.{◌≡◌, cond, ◌∷◌, [], ◌+◌, ◌≤◌, ◌<◌, length, drop, ltb};
ghost use Rattle.words.specs.Words.{word64, written, written_at};
ghost use Rattle.reading.specs.Interval.{most_rows};
ghost use Rattle.assessment.specs.Assessment.{printed_ratio};
ghost use Rattle.assessment.specs.Values.{ratio_in};
ghost use Rattle.settling.specs.Settling.{result_header_bytes, credit_offset, result_bytes};

use assessment::ratio::Ratio;
use assessment::row::Figures;
use assessment::units::{Cents, Kilowatts};
use reading::header::MOST_ROWS;
use words::{Word, put, store};

const SUMMARY_BYTES: usize = 64;

const RESULT_ROW_BYTES: usize = 64;

// Bytes of a result of the most rows.
pub const MOST_RESULT_BYTES: usize = SUMMARY_BYTES + RESULT_ROW_BYTES * MOST_ROWS;

// The sums over an interval's rows.
#[derive(Clone, Copy)]
pub struct Sums {
    pub charges: Cents,
    pub bonus: Kilowatts,
}

// The interval's figures.
#[derive(Clone, Copy)]
pub struct Summary {
    pub ratio: Ratio,
    pub sums: Sums,
    pub credits: Cents,
    pub carried: Cents,
    pub rows: usize,
}

// How a row came out: by how much it fell short, by how much it exceeded what was expected, and its charge.
#[derive(Clone, Copy)]
pub struct Balance {
    pub shortfall: Kilowatts,
    pub bonus: Kilowatts,
    pub charge: Cents,
}

// The functions below require that rows are as few as a file's, and that the result has room for them:
// the buffer changes between the calls, so that no value can hold that it has room.

// Bytes of a result of so many rows, and so where the next row begins.
pub fn result_bytes(rows: usize) -> usize
    requires { rows ≤ most_rows }
    ensures { result ≡ result_bytes rows }
{
    SUMMARY_BYTES + RESULT_ROW_BYTES * rows
}

// Writes the words of row i of so many, where the result has room for all of them; its credit is not known yet.
pub fn write_row(res: &mut [u8], rows: usize, i: usize, f: Figures, charge: Cents)
    requires rows_le_most_rows { rows ≤ most_rows }
    requires i_lt_rows { i < rows }
    ensures { let words =
        f.expected.0 ∷ f.actual.0 ∷ f.outage.0 ∷ f.economic.0 ∷ f.shortfall.0 ∷ f.bonus.0
        ∷ charge.0 ∷ 0 ∷ [] in
        res.new
        ≡ cond (ltb (length res.old) (result_bytes rows)) res.old
        (written_at (result_bytes i) words res.old) }
{
    if res.len() < result_bytes(rows) {
        return;
    }
    let words = [
        f.expected.0,
        f.actual.0,
        f.outage.0,
        f.economic.0,
        f.shortfall.0,
        f.bonus.0,
        charge.0,
        0,
    ];
    let at = result_bytes(i);
    store::<u64>(&words, &mut res[at..]);
}

// The part of a result that starts at the words of row i.
pub fn row_part(res: &[u8], i: usize) -> &[u8]
    requires i_lt_most_rows { i < most_rows }
    requires i_in_bounds { result_bytes i ≤ length res.now }
    ensures { result.now ≡ drop (result_bytes i) res.now }
{
    &res[result_bytes(i)..]
}

// The shortfall, the bonus and the charge that were written for row i.
pub fn balance_at(res: &[u8], i: usize) -> Balance
    requires row_few { i < most_rows }
    requires row_in_bounds { result_bytes (i + 1) ≤ length res.now }
    ensures shortfall_value { result.shortfall.0 ≡ word64 (drop (result_bytes i) res.now) 4 }
    ensures bonus_value { result.bonus.0 ≡ word64 (drop (result_bytes i) res.now) 5 }
    ensures charge_value { result.charge.0 ≡ word64 (drop (result_bytes i) res.now) 6 }
{
    let at = result_bytes(i);
    Balance {
        shortfall: Kilowatts(u64::number(res, at + 32)),
        bonus: Kilowatts(u64::number(res, at + 40)),
        charge: Cents(u64::number(res, at + 48)),
    }
}

// Writes the credit of row i.
pub fn write_credit(res: &mut [u8], i: usize, credit: Cents)
    requires row_few { i < most_rows }
    requires row_in_bounds { result_bytes (i + 1) ≤ length res.old }
    ensures { res.new ≡ written_at (result_bytes i + credit_offset) (credit.0 ∷ []) res.old }
{
    put::<u64>(res, result_bytes(i) + 56, credit.0);
}

// Writes the interval's eight words.
pub fn write_summary(res: &mut [u8], s: Summary)
    requires { result_header_bytes ≤ length res.old }
    ensures { let words =
        printed_ratio (ratio_in s.ratio) ∷ s.sums.charges.0 ∷ s.credits.0 ∷ s.carried.0 ∷ s.sums.bonus.0
        ∷ s.ratio.numerator.0 ∷ s.ratio.denominator.0 ∷ s.rows ∷ [] in
        res.new ≡ written words res.old }
{
    let ratio = s.ratio;
    let words = [
        ratio.millionths(),
        s.sums.charges.0,
        s.credits.0,
        s.carried.0,
        s.sums.bonus.0,
        ratio.numerator.0,
        ratio.denominator.0,
        // Nothing is lost: a size has 64 bits here.
        s.rows as u64,
    ];
    store::<u64>(&words, res);
}
