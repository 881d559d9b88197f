// A whole event in one call: files one after the other, each after its length.

#![tactic(auto)]

ghost use Rattle.std.specs.Prelude.{◌≡◌, ◌+◌, ◌<◌, length};
ghost use Rattle.std.specs.Iterator.{at_most};
ghost use Rattle.words.specs.Refusals.{answer_of};
ghost use Rattle.event.specs.Event.{settled_files, event as event_of};
ghost use Rattle.event.specs.Code.{FileDue, GivesFile, TurnTaken, FilesSettled};

use reading::header::header_of;
use settling::call::settle_file;
use settling::result::result_bytes;
use stream::LENGTH_BYTES;
use words::refusal::Refusal;
use words::{put, size};

const COUNT_BYTES: usize = 8;

// The file at the front of what is left of an event, after its length, and what follows it.
fn next_file(files: &[u8]) -> Result<(&[u8], &[u8]), Refusal>
    requires { 0 < length files.now }
    ensures { FileDue files.now result }
{
    let Some((head, rest)) = files.split_at_checked(LENGTH_BYTES) else {
        return Err(Refusal::FileCut);
    };
    rest.split_at_checked(size(head, 0)).ok_or(Refusal::FileCut)
}

// What is left of the files of an event.
#[derive(Drop)]
struct Files<'a> {
    rest: &'a [u8],
}

impl<'a> Iterator for Files<'a> {
    type Item = Result<&'a [u8], Refusal>;

    ghost next_gives = { GivesFile };

    ghost remaining = { λ files. at_most (length files.rest.now) };

    // The next file; after one that is cut there is none.
    fn next(&mut self) -> Option<Result<&'a [u8], Refusal>> {
        if self.rest.is_empty() {
            return None;
        }
        match next_file(self.rest) {
            Ok((file, rest)) => {
                self.rest = rest;
                Some(Ok(file))
            }
            Err(refusal) => {
                self.rest = &[];
                Some(Err(refusal))
            }
        }
    }
}

// Settles a file into what is left of the result, and answers how much of that it fills.
fn settle_next(ledger: &mut [u8], file: &[u8], res: &mut [u8]) -> Result<usize, Refusal>
    ensures { TurnTaken ledger.old file.now res.old ledger.new res.new result }
{
    settle_file(ledger, file, res)?;
    Ok(result_bytes(header_of(file).rows))
}

// Settles files in order, up to the first that is refused, and counts those settled; results follow each other.
fn settle_files(
    ledger: &mut [u8],
    files: &[u8],
    res: &mut [u8],
    settled: &mut u64,
) -> Result<(), Refusal>
    ensures { FilesSettled
        (settled_files (length files.now + 1)
        ledger.old files.now res.old)
        ledger.new res.new settled.new result }
{
    *settled = 0;
    let mut filled = 0;
    for found in (Files { rest: files }) {
        let file = found?;
        let bytes = settle_next(ledger, file, &mut res[filled..])?;
        filled += bytes;
        *settled += 1;
    }
    Ok(())
}

// Settles an event up to the first file that is refused, answers its ground, and writes how many files were settled.
// Where there is no room for that number it answers so, and leaves every buffer as it was.
pub fn settle_event(
    ledger: &mut [u8],
    files: &[u8],
    res: &mut [u8],
    count: &mut [u8],
) -> Result<(), Refusal>
    ensures answer { answer_of result ≡ (event_of ledger.old files.now res.old count.old).refusal }
    ensures ledger_bytes { ledger.new
        ≡ (event_of ledger.old files.now res.old count.old).ledger }
    ensures result_bytes { res.new
        ≡ (event_of ledger.old files.now res.old count.old).result }
    ensures count_bytes { count.new
        ≡ (event_of ledger.old files.now res.old count.old).count }
{
    if count.len() < COUNT_BYTES {
        return Err(Refusal::CountTooShort);
    }
    let mut settled = 0;
    let outcome = settle_files(ledger, files, res, &mut settled);
    put::<u64>(count, 0, settled);
    outcome
}
