// Rows, schedules and points of an interval file, read as values.

ghost use Rattle.std.specs.Prelude.{◌≡◌, false, List, ℕ, ◌+◌, ◌*◌, ◌≤◌, ◌<◌, ◌^◌, length};
ghost use Rattle.std.specs.Int.Signed.{mag};
ghost use Rattle.reading.specs.Interval.{
  layout_of,
  schedule_bytes,
  point_bytes,
  header_of,
  row_words,
  schedule_words,
  schedules_named,
  point_at,
  row_outside,
  kind_outside,
};
ghost use Rattle.reading.specs.Kinds.{kind_number, KindRead, schedule_kind_number, ScheduleKindRead};
ghost use Rattle.reading.specs.Values.{row_in, schedule_in, point_in};

use crate::header::{Format, Header, POINT_BYTES, schedules_word};
use words::{Word, signed, size};

// The kinds of rows: generation or storage, demand resource, energy efficiency, price responsive demand (PRD),
// energy-only, importer.
#[derive(Clone, Copy, PartialEq, Eq)]
pub enum Kind {
    Generation = 0,
    Demand = 1,
    Efficiency = 2,
    Responsive = 3,
    EnergyOnly = 4,
    Importer = 5,
}

impl Kind {
    // The kind words, on which the rules of a row match.
    pub const GENERATION: u64 = Kind::Generation as u64;

    pub const DEMAND: u64 = Kind::Demand as u64;

    pub const EFFICIENCY: u64 = Kind::Efficiency as u64;

    pub const RESPONSIVE: u64 = Kind::Responsive as u64;

    pub const ENERGY_ONLY: u64 = Kind::EnergyOnly as u64;

    pub const IMPORTER: u64 = Kind::Importer as u64;
}

// The kinds of schedules: market, price-based PLS, cost.
#[derive(Clone, Copy, PartialEq, Eq)]
pub enum ScheduleKind {
    Market = 1,
    PriceBased = 2,
    Cost = 3,
}

// A word that is of no kind.
#[derive(Clone, Copy, PartialEq, Eq)]
pub struct NoKind(pub u64);

impl TryFrom<u64> for Kind {
    type Error = NoKind;

    ghost try_from_gives = { KindRead };

    fn try_from(word: u64) -> Result<Kind, NoKind> {
        match word {
            0 => Ok(Kind::Generation),
            1 => Ok(Kind::Demand),
            2 => Ok(Kind::Efficiency),
            3 => Ok(Kind::Responsive),
            4 => Ok(Kind::EnergyOnly),
            5 => Ok(Kind::Importer),
            _ => Err(NoKind(word)),
        }
    }
}

impl TryFrom<u64> for ScheduleKind {
    type Error = NoKind;

    ghost try_from_gives = { ScheduleKindRead };

    fn try_from(word: u64) -> Result<ScheduleKind, NoKind> {
        match word {
            1 => Ok(ScheduleKind::Market),
            2 => Ok(ScheduleKind::PriceBased),
            3 => Ok(ScheduleKind::Cost),
            _ => Err(NoKind(word)),
        }
    }
}

// A row's words. The last three name its points in format 1,
// in format 2 its schedules and the one that it was dispatched on.
#[derive(Clone, Copy)]
pub struct Row {
    pub id: u64,
    pub kind: u64,
    pub committed: u64,
    pub owned: u64,
    pub metered: i64,
    pub adjustment: i64,
    pub planned: u64,
    pub forced: u64,
    pub maximum: u64,
    pub minimum: u64,
    pub online: u64,
    pub lmp: i64,
    pub first: usize,
    pub count: usize,
    pub dispatched: usize,
}

// A schedule's kind, its first point and the number of its points.
#[derive(Clone, Copy)]
pub struct Schedule {
    pub kind: u64,
    pub first: usize,
    pub points: usize,
}

// A price in cents per MWh, and kW.
#[derive(Clone, Copy)]
pub struct Point {
    pub price: i64,
    pub kw: u64,
}

impl Row {
    // The kind, of a row that ground 13 does not refuse: it rests on that alone; a SoundRow asks for 18 and 14 too.
    pub fn kind(self) -> Kind
        requires { row_outside (row_in self) ≡ false }
        ensures { kind_number result ≡ self.kind }
    {
        Kind::try_from(self.kind).unwrap()
    }
}

impl Schedule {
    // The kind, of a schedule that has one.
    pub fn kind(self) -> ScheduleKind
        requires { kind_outside (schedule_in self) ≡ false }
        ensures { schedule_kind_number result ≡ self.kind }
    {
        ScheduleKind::try_from(self.kind).unwrap()
    }
}

// The row at the front of a part of a file.
#[tactic(auto, using(crate::proofs::Layouts::row_least))]
pub(crate) fn row_of(row: &[u8], format: u64) -> Row
    requires { (layout_of format).row_bytes ≤ length row.now }
    ensures words { row_in result ≡ row_words format row.now }
    ensures first_fits { result.first < 2 ^ 32 }
{
    Row {
        id: u32::number(row, 0),
        kind: u32::number(row, 4),
        committed: u32::number(row, 8),
        owned: u32::number(row, 12),
        metered: signed(u32::number(row, 16)),
        adjustment: signed(u32::number(row, 20)),
        planned: u32::number(row, 24),
        forced: u32::number(row, 28),
        maximum: u32::number(row, 32),
        minimum: u32::number(row, 36),
        online: u32::number(row, 40),
        lmp: signed(u32::number(row, 44)),
        first: size(row, 48),
        count: size(row, 52),
        dispatched: schedules_word(row, format, 56, 0),
    }
}

// The schedule at the front of a part of a file.
#[tactic(auto, unfolding(crate::specs::Values::schedule_in, crate::specs::Interval::schedule_words, words::specs::Words::word32))]
pub(crate) fn schedule_of(schedule: &[u8]) -> Schedule
    requires { schedule_bytes ≤ length schedule.now }
    ensures words { schedule_in result ≡ schedule_words schedule.now }
    ensures first_fits { result.first < 2 ^ 32 }
{
    Schedule {
        kind: u32::number(schedule, 0),
        first: size(schedule, 4),
        points: size(schedule, 8),
    }
}

// How many schedules a row has. In format 1 its points are its one schedule.
#[tactic(auto, unfolding(crate::specs::Values::row_in))]
pub fn schedules(h: Header, row: Row) -> usize
    ensures { (f : List ℕ) → (header_of f).format ≡ h.format → result ≡ length (schedules_named f (row_in row)) }
{
    match Format::from(h.format) {
        Format::Curves => row.count.min(1),
        Format::Schedules => row.count,
    }
}

// Point j of a curve.
pub fn point_at(curve: &[u8], j: usize) -> Point
    requires { point_bytes * (j + 1) ≤ length curve.now }
    ensures result_value { point_in result ≡ point_at curve.now j }
    ensures price_bound { mag result.price < 2 ^ 31 }
    ensures kw_bound { result.kw < 2 ^ 32 }
{
    let at = POINT_BYTES * j;
    Point {
        price: signed(u32::number(curve, at)),
        kw: u32::number(curve, at + 4),
    }
}
