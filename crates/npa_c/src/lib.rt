// What a C program links: opening and settling, a file or a whole event, byte slices in, one number out.

#![tactic(auto)]

ghost use Rattle.std.specs.Prelude.{◌≡◌};
ghost use Rattle.ledger.specs.Opening.{opening};
ghost use Rattle.settling.specs.Settling.{settling};
ghost use Rattle.event.specs.Event.{event};

// Opens a ledger: answers 0, or the first ground of 1 to 5 and 23 that applies, in checking order,
// and leaves the ledger as it was.
#[unsafe(no_mangle)]
pub extern "C" fn npa_open(block: &[u8], ledger: &mut [u8]) -> u32
    ensures answer { result ≡ (opening block.now ledger.old).refusal }
    ensures buffer { ledger.new ≡ (opening block.now ledger.old).ledger }
{
    npa::npa_open(block, ledger)
}

// Settles an interval file: answers 0, or the first ground of 6 to 16 and 18 that applies, in checking order,
// and leaves ledger and result as they were.
#[unsafe(no_mangle)]
pub extern "C" fn npa_settle(ledger: &mut [u8], file: &[u8], res: &mut [u8]) -> u32
    ensures answer { result ≡ (settling ledger.old file.now res.old).refusal }
    ensures ledger_bytes { ledger.new ≡ (settling ledger.old file.now res.old).ledger }
    ensures result_bytes { res.new ≡ (settling ledger.old file.now res.old).result }
{
    npa::npa_settle(ledger, file, res)
}

// Settles an event: answers 0, or the ground of the first file refused, and leaves what was settled before it;
// or 20 where there is no room for the number of files settled, and leaves every buffer as it was.
#[unsafe(no_mangle)]
pub extern "C" fn npa_event(
    ledger: &mut [u8],
    files: &[u8],
    res: &mut [u8],
    count: &mut [u8],
) -> u32
    ensures answer { result ≡ (event ledger.old files.now res.old count.old).refusal }
    ensures ledger_bytes { ledger.new
        ≡ (event ledger.old files.now res.old count.old).ledger }
    ensures result_bytes { res.new
        ≡ (event ledger.old files.now res.old count.old).result }
    ensures count_bytes { count.new
        ≡ (event ledger.old files.now res.old count.old).count }
{
    npa::npa_event(ledger, files, res, count)
}
