// npapage: reads a plant's id, and then the stream that npalist reads, settles it, and prints the plant's page.

#![tactic(auto)]

ghost use Rattle.std.specs.Prelude.{◌≡◌, true, false, [], length, MatchOption};
ghost use Rattle.stream.specs.Code.{StepTaken};
ghost use Rattle.listing.specs.Code.{in_bytes};
ghost use Rattle.standard.specs.Input.{IsFront};
ghost use Rattle.page.specs.Page.{id_word_bytes};
ghost use Rattle.page.specs.Steps.{id_outcome};

use arrayvec::ArrayVec;
use listing::lines::put_heading;
use page::steps::{ID_WORD_BYTES, Paging, STEP_ROOM, page_id};
use standard::{print, read_word, run_from_beginning};

// Reads the id word, and takes the step on it; answers what was read, and the id.
fn id_step<'a>(word: &'a mut [u8], out: &mut ArrayVec<u8, STEP_ROOM>) -> (&'a [u8], Option<u64>)
    requires word_len { length word.old ≡ id_word_bytes }
    requires empty { out.old.items ≡ [] }
    ensures front { IsFront word.entry result.0 }
    ensures taken { MatchOption result.1
        (StepTaken (in_bytes (id_outcome result.0.now)) 0 [] out.new.items false)
        (λ id. StepTaken (in_bytes (id_outcome result.0.now)) id [] out.new.items true) }
{
    let word = read_word(word);
    let id = page_id(word, out);
    (word, id)
}

fn main() {
    let mut word = [0; ID_WORD_BYTES];
    let mut out = ArrayVec::<u8, STEP_ROOM>::new();
    put_heading(&mut out);
    if !print(out.as_slice()) {
        return;
    }
    out.clear();
    let (_, id) = id_step(&mut word, &mut out);
    if !print(out.as_slice()) {
        return;
    }
    if let Some(id) = id {
        let mut paging = Paging::new(id);
        run_from_beginning(&mut paging, &mut out);
    }
}
