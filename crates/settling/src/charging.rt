// The charges of a file's rows, each to its account.

ghost use Rattle.std.specs.Prelude.{◌≡◌, ◌≤◌};
ghost use Rattle.reading.specs.Interval.{header_of, rows_of};
ghost use Rattle.assessment.specs.Assessment.{ratio_of, charges, total_bonus};
ghost use Rattle.assessment.specs.Values.{ratio_in};
ghost use Rattle.settling.specs.Settling.{assessed_file};
ghost use Rattle.settling.specs.Values.{Passed, charged_result};

use crate::result::{Sums, write_row};
use assessment::ratio::Ratio;
use assessment::row::row_figures;
use assessment::units::{Cents, Kilowatts, Quantity};
use ledger::layout::{Accounts, Standing, account_at};
use ledger::walk::Walk;
use reading::sound::ScannedFile;

// An interval to settle: what stands before the ledger's accounts, the file, and its ratio.
// That grounds 6 to 12 do not refuse it, the functions require: posting changes the ledger, so that no value can hold it.
#[derive(Clone, Copy)]
pub struct Interval<'a> {
    pub standing: Standing,
    pub scanned: ScannedFile<'a>,
    pub ratio: Ratio,
    pub ghost ratio_is: { ratio_in ratio
        ≡ ratio_of (header_of scanned.file.bytes.now) (rows_of scanned.file.bytes.now) },
}

// Adds up charges and bonuses, and writes the words of every row but for its credit
// into a result that has room for them.
pub fn charge_rows(ledger: &[u8], interval: &Interval<'_>, res: &mut [u8]) -> Sums
    requires { Passed ledger.now interval.now.standing interval.now.scanned.file.bytes.now interval.now.scanned.file.header }
    ensures charges_value { result.charges.0 ≡ charges (assessed_file ledger.now interval.now.scanned.file.bytes.now) }
    ensures bonus_value { result.bonus.0 ≡ total_bonus (assessed_file ledger.now interval.now.scanned.file.bytes.now) }
    ensures res_after { res.new
        ≡ charged_result (assessed_file ledger.now interval.now.scanned.file.bytes.now) res.old }
{
    let scanned = interval.scanned;
    let rows = scanned.file.header.rows;
    let s = interval.standing;
    let accounts = Accounts {
        bytes: ledger,
        count: s.accounts,
    };
    let mut charges = Cents(0);
    let mut bonus = Kilowatts(0);
    let mut walk = Walk::start(rows, s.accounts);
    for i in 0..rows {
        let row = scanned.row(i);
        walk = walk.to(accounts, row.words.id);
        let f = row_figures(&row, interval.ratio);
        let account = account_at(ledger, walk.account).raised(Kilowatts(row.words.committed));
        let charge = account.charge(s.terms, f.shortfall);
        write_row(res, rows, i, f, charge);
        charges = charges.plus(charge);
        bonus = bonus.plus(f.bonus);
        walk = walk.on();
    }
    Sums { charges, bonus }
}
