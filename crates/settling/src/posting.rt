// What an accepted file leaves in its rows' accounts and credits.

ghost use Rattle.std.specs.Prelude.{◌≡◌, map, ◌≤◌, length};
ghost use Rattle.words.specs.Words.{written_at};
ghost use Rattle.assessment.specs.Assessment.{total_bonus, pool, credit, credits};
ghost use Rattle.ledger.specs.Ledger.{ledger_header_bytes, account_words, ledger_of};
ghost use Rattle.settling.specs.Settling.{result_header_bytes, result_bytes, assessed_file, rows_words, posted_all};
ghost use Rattle.settling.specs.Values.{Passed};

use crate::result::{balance_at, write_credit};
use assessment::ratio::Share;
use assessment::units::{Cents, Kilowatts, Quantity};
use ledger::layout::{Accounts, Standing, account_at, write_account};
use ledger::walk::Walk;
use reading::sound::ScannedFile;

// Writes the credit of every row, its share by its bonus, and posts charge and credit to its account.
// Answers the credits' sum. Between two rows charged and credited sums do not close:
// the bytes hold accounts, but no ledger. A function of its own keeps what the walk reads in registers.
#[inline(never)]
pub fn post_rows(
    ledger: &mut [u8],
    standing: Standing,
    scanned: ScannedFile,
    share: Share,
    res: &mut [u8],
) -> Cents
    requires passed { Passed ledger.old standing scanned.file.bytes.now scanned.file.header }
    requires rows_in_bounds { result_bytes scanned.file.header.rows ≤ length res.old }
    requires res_value { res.old
        ≡ written_at result_header_bytes (rows_words (λ c. 0) (assessed_file ledger.old scanned.file.bytes.now).rows) res.old }
    requires pool_value { share.pool.0 ≡ pool (assessed_file ledger.old scanned.file.bytes.now) }
    requires bonus_value { share.bonus.0 ≡ total_bonus (assessed_file ledger.old scanned.file.bytes.now) }
    ensures result_value { result.0 ≡ credits (assessed_file ledger.old scanned.entry.file.bytes.now) }
    ensures ledger_after { let v = assessed_file ledger.old scanned.entry.file.bytes.now in
        ledger.new
        ≡ written_at ledger_header_bytes
        (account_words (map (posted_all v v.rows) (ledger_of ledger.old).accounts))
        ledger.old }
    ensures res_after { let v = assessed_file ledger.old scanned.entry.file.bytes.now in
        res.new ≡ written_at result_header_bytes (rows_words (credit v) v.rows) res.old }
{
    let file = scanned.file;
    let count = standing.accounts;
    let mut credits = Cents(0);
    let mut walk = Walk::start(file.header.rows, count);
    for i in 0..file.header.rows {
        let row = file.row(i);
        let accounts = Accounts {
            bytes: ledger,
            count,
        };
        walk = walk.to(accounts, row.id);
        let account = account_at(ledger, walk.account).raised(Kilowatts(row.committed));
        let balance = balance_at(res, i);
        let credit = share.credit(balance.bonus);
        write_credit(res, i, credit);
        write_account(ledger, walk.account, account.added(balance.charge, credit));
        credits = credits.plus(credit);
        walk = walk.on();
    }
    credits
}
