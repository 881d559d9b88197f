// Opening and settling, a file or a whole event, byte slices in, one number out. The crate npa_c exports them to C.

#![tactic(auto)]

ghost use Rattle.std.specs.Prelude.{◌≡◌};
ghost use Rattle.ledger.specs.Opening.{opening};
ghost use Rattle.settling.specs.Settling.{settling};
ghost use Rattle.event.specs.Event.{event};

use event::settle_event;
use ledger::opening::open;
use settling::call::settle_file;
use words::refusal::answer;

// Opens a ledger: answers 0, or the first ground of 1 to 5 and 23 that applies, in checking order,
// and leaves the ledger as it was.
pub fn npa_open(block: &[u8], ledger: &mut [u8]) -> u32
    ensures answer { result ≡ (opening block.now ledger.old).refusal }
    ensures buffer { ledger.new ≡ (opening block.now ledger.old).ledger }
{
    answer(open(block, ledger))
}

// Settles an interval file: answers 0, or the first ground of 6 to 16 and 18 that applies, in checking order,
// and leaves ledger and result as they were.
pub fn npa_settle(ledger: &mut [u8], file: &[u8], res: &mut [u8]) -> u32
    ensures answer { result ≡ (settling ledger.old file.now res.old).refusal }
    ensures ledger_bytes { ledger.new ≡ (settling ledger.old file.now res.old).ledger }
    ensures result_bytes { res.new ≡ (settling ledger.old file.now res.old).result }
{
    answer(settle_file(ledger, file, res))
}

// Settles an event: answers 0, or the ground of the first file refused, and leaves what was settled before it;
// or 20 where there is no room for the number of files settled, and leaves every buffer as it was.
pub fn npa_event(ledger: &mut [u8], files: &[u8], res: &mut [u8], count: &mut [u8]) -> u32
    ensures answer { result ≡ (event ledger.old files.now res.old count.old).refusal }
    ensures ledger_bytes { ledger.new
        ≡ (event ledger.old files.now res.old count.old).ledger }
    ensures result_bytes { res.new
        ≡ (event ledger.old files.now res.old count.old).result }
    ensures count_bytes { count.new
        ≡ (event ledger.old files.now res.old count.old).count }
{
    answer(settle_event(ledger, files, res, count))
}
