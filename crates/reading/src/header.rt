// The interval file's header and the place of its tables, in both formats: its values, and grounds 7, 9 and 11.

ghost use Rattle.std.specs.Prelude.{◌≡◌, ◌+◌, ◌≤◌, ◌<◌, ◌^◌, length};
ghost use Rattle.words.specs.Grounds.{beyond as beyond_of};
ghost use Rattle.words.specs.Words.{number_at};
ghost use Rattle.reading.specs.Block.{leap_year};
ghost use Rattle.reading.specs.Interval.{
  curves_format,
  by_format,
  layout_of,
  file_layout,
  header_of,
  file_sizes,
  not_a_file,
  header_outside,
  places_outside,
  tables_misplaced,
};
ghost use Rattle.reading.specs.Kinds.{format_of};
ghost use Rattle.reading.specs.Values.{sizes_in, table_in, layout_in, header_in, HeaderRead};

use crate::spans::{Sizes, Span, not_of_formats};
use words::{Word, signed, size};

// The words of the formats whose rows name points and schedules: they are only compared, to make a Format.
const CURVES: u64 = 1;

const SCHEDULES: u64 = 2;

pub const MOST_FILE_BYTES: usize = 61440;

pub const INTERVALS_PER_DAY: u64 = 288;

const MOST_IMPORTS: u64 = 40000000;

pub const MOST_ROWS: usize = 512;

const MOST_POINTS: usize = 2048;

const MOST_SCHEDULES: usize = 1024;

pub const CURVES_ROW_BYTES: usize = 56;

pub const SCHEDULES_ROW_BYTES: usize = 60;

pub const POINT_BYTES: usize = 8;

pub const SCHEDULE_BYTES: usize = 12;

// The formats: rows name points, or schedules.
#[derive(Clone, Copy, PartialEq, Eq)]
pub enum Format {
    Curves,
    Schedules,
}

// The format by which a file is read that begins with a word.
impl From<u64> for Format {
    ghost from_gives = { λ word format. format ≡ format_of word };

    fn from(word: u64) -> Format {
        if word == CURVES {
            Format::Curves
        } else {
            Format::Schedules
        }
    }
}

// The sizes in which the formats differ.
#[derive(Clone, Copy)]
pub struct Layout {
    pub header_bytes: usize,
    pub row_bytes: usize,
    pub most_bytes: usize,
}

// The sizes of a format.
#[tactic(auto, unfolding(crate::specs::Interval::layout_of, crate::specs::Values::layout_in))]
pub fn layout_of(format: u64) -> Layout
    ensures { layout_in result ≡ layout_of format }
{
    match Format::from(format) {
        Format::Curves => Layout {
            header_bytes: 40,
            row_bytes: CURVES_ROW_BYTES,
            most_bytes: 49152,
        },
        Format::Schedules => Layout {
            header_bytes: 48,
            row_bytes: SCHEDULES_ROW_BYTES,
            most_bytes: MOST_FILE_BYTES,
        },
    }
}

// The header: its values, and of each table the number of entries and the byte offset.
#[derive(Clone, Copy)]
pub struct Header {
    pub format: u64,
    pub interval: u64,
    pub net_cone: u64,
    pub days: u64,
    pub region_wide: u64,
    pub imports: i64,
    pub rows: usize,
    pub rows_at: usize,
    pub points: usize,
    pub points_at: usize,
    pub schedules: usize,
    pub schedules_at: usize,
}

// A word that only format 2 has, at a byte offset, since a header and a row each have such words; in format 1 what
// stands for it.
pub fn schedules_word(b: &[u8], format: u64, at: usize, without: usize) -> usize
    requires { (format ≡ curves_format → ⊥) → at + 4 ≤ length b.now }
    ensures { result ≡ by_format format without (number_at 4 b.now at) }
{
    match Format::from(format) {
        Format::Curves => without,
        Format::Schedules => size(b, at),
    }
}

// The header of a file that ground 7 does not refuse.
#[tactic(auto, using(crate::proofs::Layouts::header_least))]
pub fn header_of(file: &[u8]) -> Header
    requires { (file_layout file.now).header_bytes ≤ length file.now }
    ensures { header_in result ≡ header_of file.now }
{
    let format = u32::number(file, 0);
    Header {
        format,
        interval: u32::number(file, 4),
        net_cone: u32::number(file, 8),
        days: u32::number(file, 12),
        region_wide: u32::number(file, 16),
        imports: signed(u32::number(file, 20)),
        rows: size(file, 24),
        rows_at: size(file, 28),
        points: size(file, 32),
        points_at: size(file, 36),
        schedules: schedules_word(file, format, 40, 0),
        schedules_at: schedules_word(file, format, 44, 40),
    }
}

// The least and the most bytes of a file of a format.
#[tactic(auto, unfolding(crate::specs::Interval::file_sizes, crate::specs::Values::sizes_in, crate::specs::Values::layout_in))]
fn file_sizes(format: u64) -> Sizes
    ensures { sizes_in result ≡ file_sizes format }
{
    let layout = layout_of(format);
    Sizes {
        least: layout.header_bytes,
        most: layout.most_bytes,
    }
}

// Ground 7.
#[tactic(auto, unfolding(crate::specs::Interval::not_a_file))]
pub fn not_a_file(file: &[u8]) -> bool
    ensures { result ≡ not_a_file file.now }
{
    not_of_formats(file, file_sizes(CURVES), file_sizes(SCHEDULES))
}

// Whether a signed number lies outside -most to most. By its unsigned_abs it takes settling two instructions more each
// time, seven times a row. The cast of a limit cuts nothing.
#[tactic(auto, unfolding(words::specs::Grounds::beyond))]
pub fn beyond(z: i64, most: u64) -> bool
    requires { most < 2 ^ 63 }
    ensures { result ≡ beyond_of most z }
{
    let high = most as i64;
    z < -high || high < z
}

// Ground 9, of a header that has the days of a year.
#[tactic(auto, unfolding(crate::specs::Interval::header_outside, crate::specs::Values::header_in))]
pub fn header_outside(h: Header) -> bool
    requires { h.days ≤ leap_year }
    ensures { result ≡ header_outside (header_in h) }
{
    INTERVALS_PER_DAY * h.days <= h.interval || 1 < h.region_wide || beyond(h.imports, MOST_IMPORTS)
}

// Whether one of three tables leaves the bytes from one to another, or two of them share a byte.
#[tactic(auto, unfolding(crate::specs::Interval::places_outside, crate::specs::Interval::leaves, crate::specs::Interval::meet, crate::specs::Values::table_in, words::specs::Lists::any))]
fn places_outside(rows: Span, points: Span, schedules: Span, from: usize, end: usize) -> bool
    ensures { result ≡ places_outside from end (table_in rows) (table_in points) (table_in schedules) }
{
    rows.leaves(from, end)
        || points.leaves(from, end)
        || schedules.leaves(from, end)
        || rows.overlaps(points)
        || rows.overlaps(schedules)
        || points.overlaps(schedules)
}

// Ground 11. The numbers are tested first, so that the tables' sizes are small.
#[tactic(auto, using(crate::proofs::Layouts::row_most), unfolding(crate::specs::Interval::tables_misplaced, crate::specs::Values::header_in, crate::specs::Values::layout_in, crate::specs::Values::table_in, words::specs::Grounds::outside))]
pub fn tables_misplaced(file: &[u8], h: Header) -> bool
    requires { HeaderRead file.now h }
    ensures { result ≡ tables_misplaced file.now }
{
    if h.rows < 1 || MOST_ROWS < h.rows || MOST_POINTS < h.points || MOST_SCHEDULES < h.schedules {
        return true;
    }
    let sizes = layout_of(h.format);
    let rows = Span {
        at: h.rows_at,
        bytes: sizes.row_bytes * h.rows,
    };
    let points = Span {
        at: h.points_at,
        bytes: POINT_BYTES * h.points,
    };
    let schedules = Span {
        at: h.schedules_at,
        bytes: SCHEDULE_BYTES * h.schedules,
    };
    places_outside(rows, points, schedules, sizes.header_bytes, file.len())
}
