// Standard input and output, for every program that reads a stream and prints.

#![tactic(auto)]

ghost use Rattle.std.specs.Prelude.{◌≡◌, true, [], ◌++◌, ◌+◌, ◌≤◌, ◌<◌, length};
ghost use Rattle.stream.specs.Stream.{length_bytes, next_block};
ghost use Rattle.stream.specs.Code.{StepTaken};
ghost use Rattle.reading.specs.Interval.{most_file_bytes};
ghost use Rattle.listing.specs.Npalist.{most_bytes};
ghost use Rattle.listing.specs.Room.{most_blocks};
ghost use Rattle.standard.specs.Input.{ReadNext, IsFront};

use arrayvec::ArrayVec;
use listing::steps::{BLOCK_BYTES, MOST_BLOCKS, Steps, most_bytes, take_step};
use stream::{LENGTH_BYTES, due_part};

// The descriptors of standard input and output.
const STDIN: i32 = 0;

const STDOUT: i32 = 1;

// What was read of a length, how many bytes were then due, and what was read of those.
#[derive(Clone, Copy)]
pub struct Read<'a> {
    pub head: &'a [u8],
    pub due: usize,
    pub block: &'a [u8],
}

// Reads what there is of a word or a length: the front of what is lent. That is said by where the answer begins, since
// no clause can name what a buffer holds while the answer borrows from it.
pub fn read_word(word: &mut [u8]) -> &[u8]
    ensures at_most { length result.now ≤ length word.old }
    ensures front { IsFront word.entry result }
{
    let got = io::read_full(STDIN, word);
    &word[..got]
}

// Reads a length and the bytes that are due after it, and no byte more.
// The kit says of a read how many bytes it brings at most, and not which, nor that it is asked for the whole part.
pub fn read_next<'a>(most: usize, head: &'a mut [u8], block: &'a mut [u8]) -> Read<'a>
    requires head_len { length head.old ≡ length_bytes }
    requires most_in_bounds { most ≤ length block.old }
    ensures { ReadNext most head.entry block.entry result }
{
    let head = read_word(head);
    let part = due_part(most, head, block);
    let due = part.len();
    let got = io::read_full(STDIN, part);
    Read {
        head,
        due,
        block: &block[..got],
    }
}

// Prints bytes, and answers whether that was possible: the kit says no more of it.
pub fn print(bytes: &[u8]) -> bool {
    io::write_all(STDOUT, bytes)
}

// Reads what comes next, by the limit of the block's number, and takes the step on it; answers what was read, and
// whether to go on.
pub fn next_step<'a, const ROOM: usize, S: Steps<ROOM>>(
    steps: &mut S,
    number: u64,
    head: &'a mut [u8],
    block: &'a mut [u8],
    out: &mut ArrayVec<u8, ROOM>,
) -> (Read<'a>, bool)
    requires few_blocks { number < most_blocks }
    requires head_len { length head.old ≡ length_bytes }
    requires block_len { length block.old ≡ most_file_bytes }
    requires held { S.holds number steps.old }
    requires empty { out.old.items ≡ [] }
    ensures read_next { ReadNext (most_bytes number) head.entry block.entry result.0 }
    ensures taken { StepTaken
        (S.outcome number steps.old (next_block (most_bytes number) (result.0.head.now ++ result.0.block.now)))
        steps.new [] out.new.items result.1 }
    ensures held_on { result.1 ≡ true → S.holds (number + 1) steps.new }
{
    let read = read_next(most_bytes(number), head, block);
    let on = take_step(steps, number, read.head, read.block, out);
    (read, on)
}

// Takes step after step from the first block, and prints what each puts, until one stops or the output is closed. The
// steps may stand where an earlier stream has left them: only what holds before the first block is asked.
pub fn run<const ROOM: usize, S: Steps<ROOM>>(steps: &mut S, out: &mut ArrayVec<u8, ROOM>)
    requires { S.holds 0 steps.old }
{
    let mut head = [0; LENGTH_BYTES];
    let mut block = [0; BLOCK_BYTES];
    for number in 0..MOST_BLOCKS {
        out.clear();
        let (_, on) = next_step(steps, number, &mut head, &mut block, out);
        if !print(out.as_slice()) || !on {
            return;
        }
    }
}

// The same, asked of steps that stand at their beginning. A program that takes one stream is to call this one.
pub fn run_from_beginning<const ROOM: usize, S: Steps<ROOM>>(
    steps: &mut S,
    out: &mut ArrayVec<u8, ROOM>,
)
    requires begins { S.begins steps.old }
    requires held { S.holds 0 steps.old }
{
    run(steps, out);
}
