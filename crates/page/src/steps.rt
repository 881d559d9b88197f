// The steps of a plant's page: what was read of the id word, the opening or an interval becomes lines to print.
// Each asks for its room by itself: what is left of a buffer changes with each line, so that no type holds it.

ghost use Rattle.std.specs.Prelude.{◌≡◌, true, false, [], ◌++◌, ◌+◌, ◌≤◌, ◌<◌, ◌^◌, length, drop, MatchOption};
ghost use Rattle.arrayvec.specs.ArrayVec.{array_vec_len};
ghost use Rattle.words.specs.Words.{word64};
ghost use Rattle.stream.specs.Stream.{length_bytes, bytes_due};
ghost use Rattle.stream.specs.Code.{StepTaken};
ghost use Rattle.reading.specs.Interval.{most_rows};
ghost use Rattle.settling.specs.Settling.{result_bytes};
ghost use Rattle.listing.specs.Npalist.{most_bytes, interval_listed};
ghost use Rattle.listing.specs.Code.{in_bytes};
ghost use Rattle.listing.specs.Room.{cut_room, row_room, refused_room, most_blocks};
ghost use Rattle.page.specs.Page.{id_word_bytes};
ghost use Rattle.page.specs.Steps.{page_start, no_lines, id_outcome, page_outcome, page_opening, next_paged};
ghost use Rattle.page.specs.Code.{state_in, plant_step, YearLedger, PageFits, RowPaged, PageMayGoOn};

use crate::account::has_account;
use crate::lines::{Page, put_year, row_of};
use arrayvec::ArrayVec;
use ledger::ground_six::Ledger;
use ledger::layout::MOST_LEDGER_BYTES;
use listing::blocks::list_opening;
use listing::lines::{ROW_ROOM, put_cut, put_refused, put_row_line};
pub use listing::steps::MOST_BLOCKS;
use listing::steps::{Steps, most_bytes, put_stop};
use reading::file::File;
use reading::header::header_of;
use settling::call::settle_file;
use settling::result::{MOST_RESULT_BYTES, balance_at, row_part};
use std::marker::Model;
use stream::{End, next_block};
use words::Word;
use words::refusal::Refusal;

pub const ID_WORD_BYTES: usize = 4;

// What a step prints at most: a row's line, or a refusal and the year.
pub const STEP_ROOM: usize = ROW_ROOM;

// Takes the step on what was read of the id word: the id, or a cut where the word is not whole.
pub fn page_id<const ROOM: usize>(word: &[u8], out: &mut ArrayVec<u8, ROOM>) -> Option<u64>
    requires word_in_bounds { length word.now ≤ id_word_bytes }
    requires room { array_vec_len out.old + cut_room ≤ ROOM }
    ensures { MatchOption result
        (StepTaken (in_bytes (id_outcome word.now)) 0 out.old.items out.new.items false)
        (λ id. StepTaken (in_bytes (id_outcome word.now)) id out.old.items out.new.items true) }
{
    if word.len() < ID_WORD_BYTES {
        put_cut(out, 0);
        return None;
    }
    Some(u32::number(word, 0))
}

// Opens a ledger, and puts its refusal, or that of an id outside the roster; answers whether the page goes on.
pub fn open_page<const ROOM: usize>(
    id: u64,
    ledger: &mut [u8],
    block: &[u8],
    out: &mut ArrayVec<u8, ROOM>,
) -> bool
    requires { array_vec_len out.old + refused_room ≤ ROOM }
    ensures step_taken { StepTaken (in_bytes (page_opening id (no_lines ledger.old) block.now))
        (no_lines ledger.new) out.old.items out.new.items result }
    ensures year_ledger { result ≡ true → YearLedger ledger.new }
{
    let opened = list_opening(ledger, block, out);
    if !opened {
        return false;
    }
    if has_account(Ledger::held(ledger), id) {
        return true;
    }
    put_refused(out, 0, u64::from(Refusal::OutsideRoster.number()));
    false
}

// Takes the step on what was read for the opening, for any ledger that is lent and behind what the vector holds;
// answers whether the page goes on.
pub fn page_opening<const ROOM: usize>(
    id: u64,
    ledger: &mut [u8],
    head: &[u8],
    block: &[u8],
    out: &mut ArrayVec<u8, ROOM>,
) -> bool
    requires head_in_bounds { length head.now ≤ length_bytes }
    requires block_in_bounds { length block.now ≤ bytes_due (most_bytes 0) head.now }
    requires room { array_vec_len out.old + refused_room ≤ ROOM }
    ensures step_taken { StepTaken (in_bytes (next_paged id 0 (no_lines ledger.old) (head.now ++ block.now)))
        (no_lines ledger.new) out.old.items out.new.items result }
    ensures year_ledger { result ≡ true → YearLedger ledger.new }
{
    let next = next_block(most_bytes(0), head, block);
    match next {
        Ok(()) => open_page(id, ledger, block, out),
        Err(_) => {
            put_stop(0, next, out);
            false
        }
    }
}

// Puts the plant's line, of row i of a result, and adds its figures.
fn page_row<const ROOM: usize>(
    page: &mut Page,
    interval: u64,
    i: usize,
    res: &[u8],
    out: &mut ArrayVec<u8, ROOM>,
)
    requires row_below_most { i < most_rows }
    requires row_in_result { result_bytes (i + 1) ≤ length res.now }
    requires shortfall_bound { page.old.shortfall.0 + word64 (drop (result_bytes i) res.now) 4 < 2 ^ 64 }
    requires bonus_bound { page.old.bonus.0 + word64 (drop (result_bytes i) res.now) 5 < 2 ^ 64 }
    requires room { array_vec_len out.old + row_room ≤ ROOM }
    ensures { RowPaged page.old interval (drop (result_bytes i) res.now) out.old.items out.new.items page.new }
{
    put_row_line(out, interval, page.id, row_part(res, i));
    *page = page.with(balance_at(res, i));
}

// Settles an interval file with a result of zeros, and puts the plant's line, if any, or the refusal.
pub fn page_interval<const ROOM: usize>(
    number: u64,
    page: &mut Page,
    ledger: &mut [u8],
    file: &[u8],
    out: &mut ArrayVec<u8, ROOM>,
)
    requires few_blocks { number < most_blocks }
    requires page_fits { PageFits number (state_in ledger.old page.old) }
    requires year_ledger { YearLedger ledger.old }
    requires room { array_vec_len out.old + row_room ≤ ROOM }
    ensures step_taken { StepTaken
        (in_bytes (page_outcome page.old.id (state_in ledger.old page.old)
        (interval_listed number ledger.old file.now)))
        (state_in ledger.new page.new) out.old.items out.new.items true }
    ensures same_plant { page.new.id ≡ page.old.id }
    ensures page_fits_on { PageFits (number + 1) (state_in ledger.new page.new) }
    ensures year_ledger_on { YearLedger ledger.new }
{
    let mut res = [0u8; MOST_RESULT_BYTES];
    if let Err(refusal) = settle_file(ledger, file, &mut res) {
        put_refused(out, number, u64::from(refusal.number()));
        return;
    }
    let file = File {
        bytes: file,
        header: header_of(file),
    };
    if let Some(i) = row_of(&file, page.id) {
        page_row(page, file.header.interval, i, &res, out);
    }
}

// Takes the step on what was read for an interval, for any ledger of a year that is lent and behind what the vector
// holds; answers whether the page goes on.
pub fn page_next<const ROOM: usize>(
    number: u64,
    page: &mut Page,
    ledger: &mut [u8],
    head: &[u8],
    block: &[u8],
    out: &mut ArrayVec<u8, ROOM>,
) -> bool
    requires after_opening { 0 < number }
    requires few_blocks { number < most_blocks }
    requires page_fits { PageFits number (state_in ledger.old page.old) }
    requires year_ledger { YearLedger ledger.old }
    requires head_in_bounds { length head.now ≤ length_bytes }
    requires block_in_bounds { length block.now ≤ bytes_due (most_bytes number) head.now }
    requires room { array_vec_len out.old + row_room ≤ ROOM }
    ensures step_taken { StepTaken
        (in_bytes (next_paged page.old.id number (state_in ledger.old page.old) (head.now ++ block.now)))
        (state_in ledger.new page.new) out.old.items out.new.items result }
    ensures same_plant { page.new.id ≡ page.old.id }
    ensures page_fits_on { PageFits (number + 1) (state_in ledger.new page.new) }
    ensures year_ledger_on { YearLedger ledger.new }
{
    let next = next_block(most_bytes(number), head, block);
    match next {
        Ok(()) => {
            page_interval(number, page, ledger, block, out);
            true
        }
        Err(_) => {
            put_stop(number, next, out);
            put_year(out, *page, Ledger::held(ledger));
            false
        }
    }
}

// A plant's page and the ledger, as the blocks leave them.
#[derive(Drop)]
pub struct Paging {
    page: Page,
    ledger: [u8; MOST_LEDGER_BYTES],
}

impl Model for Paging {
    ghost use Rattle.page.specs.Code.{Paged, state_in};

    ghost Value = { Paged };

    ghost view = { λ p. record { id = p.page.id; state = state_in p.ledger p.page } };
}

impl Paging {
    // Before any block.
    pub fn new(id: u64) -> Paging
        ensures start { result ≡ record { id = id; state = page_start } }
        ensures may_go_on { PageMayGoOn 0 result }
    {
        Paging {
            page: Page::empty(id),
            ledger: [0; MOST_LEDGER_BYTES],
        }
    }
}

impl Steps<STEP_ROOM> for Paging {
    ghost outcome = { plant_step };

    ghost begins = { λ p. p.state ≡ page_start };

    ghost holds = { PageMayGoOn };

    // Takes the step on a block. The number says which, as in the definition: two programs over one stream, one for the
    // opening and one for what follows, would not be plainer.
    fn block(&mut self, number: u64, block: &[u8], out: &mut ArrayVec<u8, STEP_ROOM>) -> bool {
        if number == 0 {
            return open_page(self.page.id, &mut self.ledger, block, out);
        }
        page_interval(number, &mut self.page, &mut self.ledger, block, out);
        true
    }

    // Puts the line where the stream stops, if any, and after the opening the year line after it. The number of the
    // block that is next alone says whether the opening was.
    fn stop(&self, number: u64, end: End, out: &mut ArrayVec<u8, STEP_ROOM>) {
        put_stop(number, Err(end), out);
        if number != 0 {
            put_year(out, self.page, Ledger::held(&self.ledger));
        }
    }
}
