// Grounds 13, 18 and 14: the rows, their schedules and the points of these.

ghost use Rattle.std.specs.Prelude.{◌≡◌, ◌∷◌, [], ◌+◌, ◌≤◌, ◌<◌, ◌^◌, ◌||◌, ltb, IfOk};
ghost use Rattle.words.specs.Lists.{any};
ghost use Rattle.words.specs.Grounds.{beyond as beyond_of, answered};
ghost use Rattle.words.specs.Refusals.{answer_of};
ghost use Rattle.reading.specs.Interval.{
  curves_format,
  by_format,
  most_kilowatts,
  table_schedules,
  row_outside,
  kind_outside,
  schedules_outside,
  point_outside,
  falls as falls_of,
  curve_misplaced,
  point_refused,
  row_grounds,
};
ghost use Rattle.reading.specs.Values.{row_in, schedule_in, point_in};

use crate::curve::Curve;
use crate::file::File;
use crate::header::{Format, Header, beyond};
use crate::rows::{Kind, Point, Row, Schedule, ScheduleKind};
use crate::sound::ScannedFile;
use words::refusal::Refusal;

pub const MOST_KILOWATTS: u64 = 4000000;

const MOST_PRICE: u64 = 1000000;

const MOST_ROW_SCHEDULES: usize = 4;

const MOST_CURVE_POINTS: usize = 10;

// Whether a word of a row that counts kW, and is not signed, is too high. Here and in the other tests of ground 13 each
// returns, since settling takes longer where `||` joins them.
#[tactic(auto, unfolding(words::specs::Lists::any))]
fn kilowatts_outside(row: Row) -> bool
    ensures { result ≡ any (ltb most_kilowatts)
        (row.committed ∷ row.owned ∷ row.planned ∷ row.forced ∷ row.maximum ∷ row.minimum ∷ []) }
{
    if MOST_KILOWATTS < row.committed {
        return true;
    }
    if MOST_KILOWATTS < row.owned {
        return true;
    }
    if MOST_KILOWATTS < row.planned {
        return true;
    }
    if MOST_KILOWATTS < row.forced {
        return true;
    }
    if MOST_KILOWATTS < row.maximum {
        return true;
    }
    MOST_KILOWATTS < row.minimum
}

// Whether what was metered, or its adjustment, lies too far from 0.
fn output_outside(row: Row) -> bool
    ensures { result ≡ (beyond_of most_kilowatts row.metered || beyond_of most_kilowatts row.adjustment) }
{
    if beyond(row.metered, MOST_KILOWATTS) {
        return true;
    }
    beyond(row.adjustment, MOST_KILOWATTS)
}

// Ground 13, of one row.
#[tactic(auto, unfolding(crate::specs::Interval::row_outside, crate::specs::Values::row_in))]
pub fn row_outside(row: Row) -> bool
    ensures { result ≡ row_outside (row_in row) }
{
    let Ok(kind) = Kind::try_from(row.kind) else {
        return true;
    };
    if kilowatts_outside(row) {
        return true;
    }
    if output_outside(row) {
        return true;
    }
    if row.maximum < row.minimum {
        return true;
    }
    if 1 < row.online {
        return true;
    }
    if beyond(row.lmp, MOST_PRICE) {
        return true;
    }
    matches!(kind, Kind::EnergyOnly | Kind::Importer) && 0 < row.committed
}

// Whether so many entries of a table, from one of them on, reach beyond it.
fn reach_beyond(table: usize, first: usize, count: usize) -> bool
    requires { first + count < 2 ^ 64 }
    ensures { result ≡ ltb table (first + count) }
{
    table < first + count
}

// Whether a schedule is of no kind.
#[tactic(auto, unfolding(crate::specs::Interval::kind_outside, crate::specs::Values::schedule_in, words::specs::Grounds::outside))]
fn kind_outside(s: Schedule) -> bool
    ensures { result ≡ kind_outside (schedule_in s) }
{
    ScheduleKind::try_from(s.kind).is_err()
}

// Whether one of so many schedules of the file's table, from one of them on, is of no kind.
fn kinds_outside(file: &File<'_>, first: usize, count: usize) -> bool
    requires { first + count ≤ file.now.header.schedules }
    ensures { result ≡ any kind_outside (table_schedules file.now.bytes.now first count) }
{
    for k in 0..count {
        if kind_outside(file.table_schedule(first + k)) {
            return true;
        }
    }
    false
}

// Ground 18, of one row of a file whose rows name schedules.
fn schedules_outside(file: &File<'_>, row: Row) -> bool
    requires naming { file.now.header.format ≡ curves_format → ⊥ }
    requires first_fits { row.first < 2 ^ 32 }
    ensures { result ≡ schedules_outside file.now.bytes.now (row_in row) }
{
    // Without schedules the word that names the first is free.
    if row.count == 0 {
        return 0 < row.dispatched;
    }
    MOST_ROW_SCHEDULES < row.count
        || row.count <= row.dispatched
        || reach_beyond(file.header.schedules, row.first, row.count)
        || kinds_outside(file, row.first, row.count)
}

// How many rows ground 18 looks at: in format 1 it applies to none.
fn rows_naming(h: Header) -> usize
    ensures value { result ≡ by_format h.format 0 h.rows }
    ensures upper_bound { result ≤ h.rows }
    ensures naming { 0 < result → h.format ≡ curves_format → ⊥ }
{
    match Format::from(h.format) {
        Format::Curves => 0,
        Format::Schedules => h.rows,
    }
}

// Whether a schedule's points are too few, too many, or reach beyond a table of so many.
#[tactic(auto, unfolding(crate::specs::Interval::curve_misplaced, crate::specs::Values::schedule_in, words::specs::Grounds::outside))]
fn curve_misplaced(points: usize, s: Schedule) -> bool
    requires { s.first < 2 ^ 32 }
    ensures { result ≡ curve_misplaced points (schedule_in s) }
{
    s.points < 1 || MOST_CURVE_POINTS < s.points || reach_beyond(points, s.first, s.points)
}

// Whether a point is out of range.
#[tactic(auto, unfolding(crate::specs::Interval::point_outside, crate::specs::Values::point_in))]
fn point_outside(p: Point) -> bool
    ensures { result ≡ point_outside (point_in p) }
{
    beyond(p.price, MOST_PRICE) || MOST_KILOWATTS < p.kw
}

// Whether the price or the kW falls from one point to the next.
#[tactic(auto, unfolding(crate::specs::Interval::falls, crate::specs::Interval::falls_after, crate::specs::Values::point_in))]
fn falls(p: Point, next: Point) -> bool
    ensures { result ≡ falls_of (point_in p ∷ point_in next ∷ []) }
{
    next.price < p.price || next.kw < p.kw
}

// Whether point j of a curve is out of range, or falls from the one before it.
fn point_refused(curve: &Curve<'_>, j: usize) -> bool
    requires { j < curve.now.count }
    ensures { result ≡ point_refused curve.now.points.now j }
{
    let p = curve.point(j);
    point_outside(p) || j != 0 && falls(curve.point(j - 1), p)
}

impl<'a> File<'a> {
    // Grounds 13, 18 and 14: all rows are tested for one before any for the next. The loops are left by a
    // label with the ground's number, as document 01 has the scan.
    pub fn scan(&self) -> u32
        ensures { result ≡ answered (row_grounds self.now.bytes.now) }
    {
        let h = self.header;
        let ground = 'scan: loop {
            for i in 0..h.rows {
                if row_outside(self.row(i)) {
                    break 'scan 13;
                }
            }
            for m in 0..rows_naming(h) {
                if schedules_outside(self, self.row(m)) {
                    break 'scan 18;
                }
            }
            for n in 0..h.rows {
                let row = self.row(n);
                for k in 0..self.schedules(row) {
                    let s = self.schedule(row, k);
                    if curve_misplaced(h.points, s) {
                        break 'scan 14;
                    }
                    let points = self.curve(s);
                    for j in 0..points.count {
                        if point_refused(&points, j) {
                            break 'scan 14;
                        }
                    }
                }
            }
            break 'scan 0;
        };
        ground
    }

    // The file, if none of these grounds refuses it, or else the first that does.
    pub fn scanned(self) -> Result<ScannedFile<'a>, Refusal>
        ensures answer { answer_of result ≡ answered (row_grounds self.entry.bytes.now) }
        ensures file { IfOk result (λ scanned. scanned.file ≡ self.entry) }
    {
        match self.scan() {
            0 => Ok(ScannedFile { file: self }),
            13 => Err(Refusal::RowOutside),
            18 => Err(Refusal::SchedulesOutside),
            _ => Err(Refusal::CurveOutside),
        }
    }
}
