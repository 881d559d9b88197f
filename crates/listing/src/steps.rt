// The steps of a program over a stream: on a block, or where the stream stops; and those of npalist.

ghost use Rattle.std.specs.Prelude.{◌≡◌, true, false, ◌++◌, [], ℕ, ◌+◌, ◌≤◌, ◌<◌, length};
ghost use Rattle.arrayvec.specs.ArrayVec.{array_vec_len};
ghost use Rattle.words.specs.Refusals.{ground_number};
ghost use Rattle.stream.specs.Stream.{length_bytes, End as StreamEnd, Next, bytes_due, next_block};
ghost use Rattle.stream.specs.Steps.{Outcome, step};
ghost use Rattle.stream.specs.Code.{end_in, found_as, StepTaken};
ghost use Rattle.reading.specs.Interval.{most_file_bytes};
ghost use Rattle.listing.specs.Lines.{bytes_of_lines};
ghost use Rattle.listing.specs.Npalist.{
  ledger_buffer,
  most_bytes,
  over_long_ground,
  end_lines,
  listing_steps,
  next_listed,
};
ghost use Rattle.listing.specs.Code.{in_bytes, stop_lines, Puts};
ghost use Rattle.listing.specs.Room.{refused_room, cut_room, block_room, most_blocks};

use crate::blocks::list_block;
use crate::lines::{POOL_ROOM, ROW_ROOM, put_cut, put_refused};
use arrayvec::ArrayVec;
use ledger::layout::MOST_LEDGER_BYTES;
use reading::block::MOST_BLOCK_BYTES;
use reading::header::{MOST_FILE_BYTES, MOST_ROWS};
use std::marker::Model;
use stream::{End, next_block};
use words::refusal::Refusal;

// The buffers of a listing: the longest block, a ledger of the most accounts, and the lines of the most rows.
pub const BLOCK_BYTES: usize = MOST_FILE_BYTES;

pub const LEDGER_BYTES: usize = MOST_LEDGER_BYTES;

pub const LINES_BYTES: usize = MOST_ROWS * ROW_ROOM + POOL_ROOM;

// A loop that is proved has to end, and nothing says that standard input does: no stream has so many blocks.
pub const MOST_BLOCKS: u64 = 1099511627776;

// What a program over a stream does at each block, by the block's number.
pub trait Steps<const ROOM: usize> {
    // what it prints on what comes next, what it leaves, and whether it goes on
    ghost outcome: { ℕ → Self → Next → Outcome ℕ Self };

    // how it begins, before any block; where a program says nothing of it, in any state
    ghost begins: { Self → Type 0 } = { λ steps. Unit {0} };

    // what holds before the step of a block
    ghost holds: { ℕ → Self → Type 0 };

    // Takes the step on a block, and puts what it prints; answers whether to go on.
    fn block(&mut self, number: u64, block: &[u8], out: &mut ArrayVec<u8, ROOM>) -> bool
        requires few_blocks { number < most_blocks }
        requires held { holds number self.old }
        requires empty { out.old.items ≡ [] }
        ensures taken { StepTaken (outcome number self.old (Next.block block.now [])) self.new [] out.new.items result }
        ensures held_on { result ≡ true → holds (number + 1) self.new };

    // Puts what is printed where the stream stops.
    fn stop(&self, number: u64, end: End, out: &mut ArrayVec<u8, ROOM>)
        requires held { holds number self.now }
        requires empty { out.old.items ≡ [] }
        ensures { StepTaken (outcome number self.now (Next.stop (end_in end))) self.now [] out.new.items false };
}

// The most bytes of a block. Its number alone says whether it is the opening.
pub fn most_bytes(number: u64) -> usize
    ensures value { result ≡ most_bytes number }
    ensures upper_bound { result ≤ most_file_bytes }
{
    if number == 0 {
        return MOST_BLOCK_BYTES;
    }
    MOST_FILE_BYTES
}

// The ground of a length over that limit. The block's number alone says whether it is the opening.
fn over_long_ground(number: u64) -> Refusal
    ensures { ground_number result ≡ over_long_ground number }
{
    if number == 0 {
        return Refusal::NotABlock;
    }
    Refusal::NotAFile
}

// Puts a cut if the stream ends before the opening, and nothing if it ends later. The number of the block that is next
// alone says which.
fn put_end<const ROOM: usize>(number: u64, out: &mut ArrayVec<u8, ROOM>)
    requires { array_vec_len out.old + cut_room ≤ ROOM }
    ensures { Puts out.old (bytes_of_lines (end_lines number StreamEnd.ended)) cut_room out.new }
{
    if number != 0 {
        return;
    }
    put_cut(out, 0);
}

// Puts the line where a stream stops, if any, and nothing where a block is next.
pub fn put_stop<const ROOM: usize>(number: u64, next: Result<(), End>, out: &mut ArrayVec<u8, ROOM>)
    requires { array_vec_len out.old + refused_room ≤ ROOM }
    ensures { Puts out.old (bytes_of_lines (stop_lines number (found_as next []))) refused_room out.new }
{
    match next {
        Ok(()) => {}
        Err(end) => match end {
            End::Ended => put_end(number, out),
            End::Cut => put_cut(out, number),
            End::OverLong => {
                put_refused(out, number, u64::from(over_long_ground(number).number()))
            }
        },
    }
}

// Takes the step on what was read of a length and of the bytes due after it; answers whether to go on.
pub fn take_step<const ROOM: usize, S: Steps<ROOM>>(
    steps: &mut S,
    number: u64,
    head: &[u8],
    block: &[u8],
    out: &mut ArrayVec<u8, ROOM>,
) -> bool
    requires few_blocks { number < most_blocks }
    requires head_in_bounds { length head.now ≤ length_bytes }
    requires block_in_bounds { length block.now ≤ bytes_due (most_bytes number) head.now }
    requires held { S.holds number steps.old }
    requires empty { out.old.items ≡ [] }
    ensures taken { StepTaken (S.outcome number steps.old (next_block (most_bytes number) (head.now ++ block.now)))
        steps.new [] out.new.items result }
    ensures held_on { result ≡ true → S.holds (number + 1) steps.new }
{
    match next_block(most_bytes(number), head, block) {
        Ok(()) => steps.block(number, block, out),
        Err(end) => {
            steps.stop(number, end, out);
            false
        }
    }
}

// Takes the step of a listing on what was read of a length and of the bytes due after it, for any ledger that is lent
// and behind what the vector holds; answers whether to go on.
pub fn list_next<const ROOM: usize>(
    number: u64,
    ledger: &mut [u8],
    head: &[u8],
    block: &[u8],
    out: &mut ArrayVec<u8, ROOM>,
) -> bool
    requires head_in_bounds { length head.now ≤ length_bytes }
    requires block_in_bounds { length block.now ≤ bytes_due (most_bytes number) head.now }
    requires room { array_vec_len out.old + block_room ≤ ROOM }
    ensures { StepTaken (in_bytes (next_listed number ledger.old (head.now ++ block.now)))
        ledger.new out.old.items out.new.items result }
{
    let next = next_block(most_bytes(number), head, block);
    match next {
        Ok(()) => list_block(number, ledger, block, out),
        Err(_) => {
            put_stop(number, next, out);
            false
        }
    }
}

// A listing, whose state is the ledger.
#[derive(Drop)]
pub struct Listing {
    ledger: [u8; MOST_LEDGER_BYTES],
}

impl Model for Listing {
    ghost use Rattle.std.specs.Prelude.{List, ℕ};

    ghost Value = { List ℕ };

    ghost view = { λ l. l.ledger };
}

impl Listing {
    // Before any block.
    pub fn new() -> Listing
        ensures { result ≡ ledger_buffer }
    {
        Listing {
            ledger: [0; MOST_LEDGER_BYTES],
        }
    }
}

impl Steps<LINES_BYTES> for Listing {
    ghost outcome = { λ number ledger next. in_bytes (step listing_steps number ledger next) };

    ghost begins = { λ ledger. ledger ≡ ledger_buffer };

    ghost holds = { λ number ledger. Unit {0} };

    // Opens or settles a block.
    fn block(&mut self, number: u64, block: &[u8], out: &mut ArrayVec<u8, LINES_BYTES>) -> bool {
        list_block(number, &mut self.ledger, block, out)
    }

    fn stop(&self, number: u64, end: End, out: &mut ArrayVec<u8, LINES_BYTES>) {
        put_stop(number, Err(end), out);
    }
}
