// The lines of a listing, each put behind what a buffer holds. Each asks for its room by itself: what is left of a
// buffer changes with each line, so that no type holds it.

ghost use Rattle.std.specs.Prelude.{◌≡◌, ◌∷◌, [], ◌++◌, ◌+◌, ◌*◌, ◌≤◌, ◌<◌, length};
ghost use Rattle.arrayvec.specs.ArrayVec.{array_vec_len};
ghost use Rattle.words.specs.Words.{words_in};
ghost use Rattle.settling.specs.Settling.{result_header_bytes, result_row_bytes};
ghost use Rattle.listing.specs.Lines.{most_digits, decimal, line, heading, Line, bytes_of_line};
ghost use Rattle.listing.specs.Npalist.{row_line, pool_line};
ghost use Rattle.listing.specs.Code.{Puts, year_in};
ghost use Rattle.listing.specs.Room.{heading_room, field_room, refused_room, cut_room, row_room, pool_room, year_room};

use arrayvec::ArrayVec;
use assessment::units::{Cents, Kilowatts};
use itoa::Buffer;
use words::Word;

// The heading, for every program that prints lines.
pub const HEADING: [u8; 74] =
    *b"interval,id,expected,actual,outage,economic,shortfall,bonus,charge,credit\n";

// The base of decimal numbers.
const BASE: u64 = 10;

// A number takes at most 20 digits and the byte after it; the line of a row has ten, a pool line five after its name.
const FIELD_ROOM: usize = 21;

pub const ROW_ROOM: usize = 10 * FIELD_ROOM;

pub const POOL_ROOM: usize = 5 + 5 * FIELD_ROOM;

// What a plant's year line says.
#[derive(Clone, Copy)]
pub struct YearFigures {
    pub id: u64,
    pub shortfall: Kilowatts,
    pub bonus: Kilowatts,
    pub charged: Cents,
    pub credited: Cents,
    pub limit: Cents,
}

// Puts bytes as they are.
pub fn put_text<const ROOM: usize>(out: &mut ArrayVec<u8, ROOM>, bytes: &[u8])
    requires { array_vec_len out.old + length bytes.now ≤ ROOM }
    ensures { out.new.items ≡ out.old.items ++ bytes.now }
{
    out.try_extend_from_slice(bytes).unwrap();
}

// Puts the heading.
#[tactic(auto, unfolding(crate::specs::Lines::heading, crate::specs::Lines::text))]
pub fn put_heading<const ROOM: usize>(out: &mut ArrayVec<u8, ROOM>)
    requires { array_vec_len out.old + heading_room ≤ ROOM }
    ensures { Puts out.old heading heading_room out.new }
{
    put_text(out, &HEADING);
}

// Puts a number in decimal. Most numbers of a listing are 0. A digit alone goes without the library's buffer: with it
// for each, npalist prints five million rows a second, and not six. A digit is below 10, so that the cast cuts nothing.
#[inline(always)]
pub fn put_decimal<const ROOM: usize>(out: &mut ArrayVec<u8, ROOM>, v: u64)
    requires { array_vec_len out.old + most_digits ≤ ROOM }
    ensures { Puts out.old (decimal v) most_digits out.new }
{
    if v < BASE {
        out.push(b'0' + v as u8);
        return;
    }
    let mut digits = Buffer::new();
    put_text(out, digits.format(v).as_bytes());
}

// Puts a number and one byte after it.
#[inline(always)]
pub fn put_number<const ROOM: usize>(out: &mut ArrayVec<u8, ROOM>, v: u64, after: u8)
    requires { array_vec_len out.old + field_room ≤ ROOM }
    ensures { Puts out.old (decimal v ++ after ∷ []) field_room out.new }
{
    put_decimal(out, v);
    out.push(after);
}

// Puts numbers with commas between them, and a newline.
pub fn put_line<const ROOM: usize>(out: &mut ArrayVec<u8, ROOM>, numbers: &[u64])
    requires some_number { 0 < length numbers.now }
    requires room { array_vec_len out.old + field_room * length numbers.now ≤ ROOM }
    ensures { Puts out.old (line numbers.now) (field_room * length numbers.now) out.new }
{
    let [front @ .., last] = numbers else {
        return;
    };
    for v in front {
        put_number(out, *v, b',');
    }
    put_number(out, *last, b'\n');
}

// Puts the line of a refused block. The ground's number is any: a refusal's own type would ask more of callers.
#[tactic(auto, unfolding(crate::specs::Lines::bytes_of_line, crate::specs::Lines::text))]
pub fn put_refused<const ROOM: usize>(out: &mut ArrayVec<u8, ROOM>, block: u64, refusal: u64)
    requires { array_vec_len out.old + refused_room ≤ ROOM }
    ensures { Puts out.old (bytes_of_line (Line.refused block refusal)) refused_room out.new }
{
    put_text(out, b"refused,");
    put_line(out, &[block, refusal]);
}

// Puts the line of a stream that is cut off.
#[tactic(auto, unfolding(crate::specs::Lines::bytes_of_line, crate::specs::Lines::text))]
pub fn put_cut<const ROOM: usize>(out: &mut ArrayVec<u8, ROOM>, block: u64)
    requires { array_vec_len out.old + cut_room ≤ ROOM }
    ensures { Puts out.old (bytes_of_line (Line.cut block)) cut_room out.new }
{
    put_text(out, b"cut,");
    put_line(out, &[block]);
}

// Puts the line of the first n words of a ledger, a result or a part of one.
pub fn put_word_line<const ROOM: usize>(out: &mut ArrayVec<u8, ROOM>, b: &[u8], n: usize)
    requires some_word { 0 < n }
    requires words_in_bounds { 8 * n ≤ length b.now }
    requires room { array_vec_len out.old + field_room * n ≤ ROOM }
    ensures { Puts out.old (line (words_in n b.now)) (field_room * n) out.new }
{
    let last = n - 1;
    for k in 0..last {
        put_number(out, u64::number(b, 8 * k), b',');
    }
    put_number(out, u64::number(b, 8 * last), b'\n');
}

// Puts the line of a row: interval, id and the row's eight words, which begin at the front of a part of a result.
pub fn put_row_line<const ROOM: usize>(
    out: &mut ArrayVec<u8, ROOM>,
    interval: u64,
    id: u64,
    row: &[u8],
)
    requires row_in_bounds { result_row_bytes ≤ length row.now }
    requires room { array_vec_len out.old + row_room ≤ ROOM }
    ensures { Puts out.old (bytes_of_line (row_line interval id row.now)) row_room out.new }
{
    put_number(out, interval, b',');
    put_number(out, id, b',');
    put_word_line(out, row, 8);
}

// Puts the pool line of an interval: interval, ratio, charges, credits, carried.
pub fn put_pool_line<const ROOM: usize>(out: &mut ArrayVec<u8, ROOM>, interval: u64, res: &[u8])
    requires header_in_bounds { result_header_bytes ≤ length res.now }
    requires room { array_vec_len out.old + pool_room ≤ ROOM }
    ensures { Puts out.old (bytes_of_line (pool_line interval res.now)) pool_room out.new }
{
    put_text(out, b"pool,");
    put_number(out, interval, b',');
    put_word_line(out, res, 4);
}

// Puts the year line of a plant. Kilowatts and cents are numbers from here on.
#[tactic(auto, unfolding(crate::specs::Lines::bytes_of_line, crate::specs::Lines::text, crate::specs::Code::year_in))]
pub fn put_year_line<const ROOM: usize>(out: &mut ArrayVec<u8, ROOM>, y: YearFigures)
    requires { array_vec_len out.old + year_room ≤ ROOM }
    ensures { Puts out.old (bytes_of_line (Line.year (year_in y))) year_room out.new }
{
    put_text(out, b"year,");
    put_line(
        out,
        &[
            y.id,
            y.shortfall.0,
            y.bonus.0,
            y.charged.0,
            y.credited.0,
            y.limit.0,
        ],
    );
}
