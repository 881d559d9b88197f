// An interval file whose tables lie within it: its rows, their schedules, and the curves of these.

ghost use Rattle.std.specs.Prelude.{◌≡◌, [], true, false, ◌+◌, ◌*◌, ◌<◌, ◌^◌, length, drop, MatchOption};
ghost use Rattle.reading.specs.Interval.{
  schedule_bytes,
  row_words_at,
  schedule_words,
  schedules_named,
  schedule_at,
  schedules_beyond,
  schedules_outside,
  curve_part,
  curve_misplaced,
  tables_misplaced,
};
ghost use Rattle.reading.specs.Values.{header_in, row_in, schedule_in, HeaderRead, Tabled, Dispatched};

use crate::curve::Curve;
use crate::header::{
    CURVES_ROW_BYTES, Format, Header, POINT_BYTES, SCHEDULE_BYTES, SCHEDULES_ROW_BYTES,
    tables_misplaced,
};
use crate::rows::{Row, Schedule, ScheduleKind, row_of, schedule_of, schedules};

// The bytes of a file and its header.
#[derive(Clone, Copy)]
pub struct File<'a> {
    pub bytes: &'a [u8],
    pub header: Header,
    pub ghost tabled: { Tabled bytes.now header },
}

impl<'a> File<'a> {
    // The file with a header that is read from it, unless ground 11 refuses it.
    #[tactic(auto, using(crate::proofs::Facts::tabled))]
    pub fn of(bytes: &'a [u8], header: Header) -> Option<File<'a>>
        requires { HeaderRead bytes.now header }
        ensures { MatchOption result (tables_misplaced bytes.now ≡ true)
            (λ file. (tables_misplaced bytes.now ≡ false) × (file.bytes.now ≡ bytes.now) × (file.header ≡ header)) }
    {
        if tables_misplaced(bytes, header) {
            return None;
        }
        Some(File { bytes, header })
    }

    // Row i. Each format's rows are a constant apart, which is faster than a size that is looked up.
    #[tactic(auto, using(crate::proofs::Facts::row_lies), unfolding(crate::specs::Interval::layout_of))]
    pub fn row(&self, i: usize) -> Row
        requires { i < self.now.header.rows }
        ensures words { row_in result ≡ row_words_at self.now.bytes.now i }
        ensures first_fits { result.first < 2 ^ 32 }
    {
        let h = self.header;
        match Format::from(h.format) {
            Format::Curves => row_of(&self.bytes[h.rows_at + CURVES_ROW_BYTES * i..], h.format),
            Format::Schedules => {
                row_of(&self.bytes[h.rows_at + SCHEDULES_ROW_BYTES * i..], h.format)
            }
        }
    }

    // How many schedules a row has.
    pub fn schedules(&self, row: Row) -> usize
        ensures { result ≡ length (schedules_named self.now.bytes.now (row_in row)) }
    {
        schedules(self.header, row)
    }

    // Schedule n of the table.
    pub fn table_schedule(&self, n: usize) -> Schedule
        requires { n < self.now.header.schedules }
        ensures words { schedule_in result
            ≡ schedule_words (drop (self.now.header.schedules_at + schedule_bytes * n) self.now.bytes.now) }
        ensures first_fits { result.first < 2 ^ 32 }
    {
        let at = self.header.schedules_at + SCHEDULE_BYTES * n;
        schedule_of(&self.bytes[at..])
    }

    // Schedule k of a row. The one of format 1 is a market schedule. `as` is how an enum's number is read.
    pub fn schedule(&self, row: Row, k: usize) -> Schedule
        requires within_table { schedules_beyond (header_in self.now.header) (row_in row) ≡ false }
        requires k_lt_count { k < length (schedules_named self.now.bytes.now (row_in row)) }
        ensures value { schedule_in result ≡ schedule_at self.now.bytes.now (row_in row) k }
        ensures first_fits { row.first < 2 ^ 32 → result.first < 2 ^ 32 }
    {
        match Format::from(self.header.format) {
            Format::Curves => Schedule {
                kind: ScheduleKind::Market as u64,
                first: row.first,
                points: row.count,
            },
            Format::Schedules => self.table_schedule(row.first + k),
        }
    }

    // The schedule that a row was dispatched on, if it has any.
    pub fn dispatched_on(&self, row: Row) -> Option<Schedule>
        requires { schedules_outside self.now.bytes.now (row_in row) ≡ false }
        ensures { MatchOption result (schedules_named self.now.bytes.now (row_in row) ≡ [])
            (λ s. Dispatched self.now.bytes.now (row_in row) s) }
    {
        if row.count == 0 {
            return None;
        }
        Some(self.schedule(row, row.dispatched))
    }

    // The curve of a schedule.
    #[tactic(auto, using(crate::proofs::Schedules::points_within), unfolding(crate::specs::Values::schedule_in))]
    pub fn curve(&self, s: Schedule) -> Curve<'a>
        requires { curve_misplaced self.now.header.points (schedule_in s) ≡ false }
        ensures part { result.points.now ≡ curve_part self.now.bytes.now (schedule_in s) }
        ensures count { result.count ≡ s.points }
    {
        let at = self.header.points_at + POINT_BYTES * s.first;
        Curve {
            points: &self.bytes[at..],
            count: s.points,
        }
    }
}
