// The words that a call leaves in its buffers.

ghost use Rattle.std.specs.Prelude.{◌≤◌, length};
ghost use Rattle.figures.specs.Room.{listing_ledger_bytes, listing_result_bytes};

use figures::print::words;

// Prints a ledger of four accounts, and the word beyond them.
pub fn ledger_words(ledger: &[u8])
    requires { listing_ledger_bytes ≤ length ledger.now }
{
    words(b"01 ledger: ", ledger, 8);
    words(b"01 account: ", &ledger[64..], 4);
    words(b"01 account: ", &ledger[96..], 4);
    words(b"01 account: ", &ledger[128..], 4);
    words(b"01 account: ", &ledger[160..], 4);
    words(b"01 beyond the accounts: ", &ledger[192..], 1);
}

// Prints a result of four rows.
pub fn result_words(res: &[u8])
    requires { listing_result_bytes ≤ length res.now }
{
    words(b"01 result: ", res, 8);
    words(b"01 row: ", &res[64..], 8);
    words(b"01 row: ", &res[128..], 8);
    words(b"01 row: ", &res[192..], 8);
    words(b"01 row: ", &res[256..], 8);
}
