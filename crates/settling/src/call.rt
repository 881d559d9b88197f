// Settling: from an interval file into a ledger and a result.

ghost use Rattle.std.specs.Prelude.{◌≡◌, ◌≤◌, length};
ghost use Rattle.words.specs.Words.{written};
ghost use Rattle.words.specs.Refusals.{answer_of};
ghost use Rattle.reading.specs.Block.{leap_year};
ghost use Rattle.assessment.specs.Assessment.{most_cents, pool};
ghost use Rattle.ledger.specs.Ledger.{ledger_words};
ghost use Rattle.settling.specs.Settling.{
  result_bytes,
  result_words,
  assessed_file,
  pool_too_large,
  settled_ledger,
  settling as settling_of,
};
ghost use Rattle.settling.specs.Values.{Passed};

use crate::charging::{Interval, charge_rows};
use crate::grounds::later_grounds;
use crate::posting::post_rows;
use crate::result::{Summary, write_summary};
use assessment::balancing::ratio_of;
use assessment::ratio::Share;
use assessment::units::{Cents, Quantity};
use ledger::ground_six::{Ledger, MOST_CARRIED};
use ledger::layout::{Standing, write_standing};
use reading::header::{header_of, not_a_file};
use words::refusal::Refusal;

// The most that the charges of one file can be: those of 512 rows that are 4000000 kW short on the highest terms.
const MOST_CHARGES: Cents = Cents(512 * 813333333);

// Ground 16, by charging the rows on trial, into a result without room.
fn pool_too_large(ledger: &[u8], interval: &Interval<'_>) -> bool
    requires { Passed ledger.now interval.now.standing interval.now.scanned.file.bytes.now interval.now.scanned.file.header }
    ensures { result ≡ pool_too_large (assessed_file ledger.now interval.now.scanned.file.bytes.now) }
{
    let room = MOST_CARRIED.minus(interval.standing.carried);
    // Only where carried cents leave little room can charges exceed it.
    if MOST_CHARGES <= room {
        return false;
    }
    let mut nowhere = [0u8; 1];
    let sums = charge_rows(ledger, interval, &mut nowhere);
    room < sums.charges
}

// Writes the result and the ledger of a file that no ground refuses.
fn write_settled(ledger: &mut [u8], interval: &Interval<'_>, res: &mut [u8])
    requires passed { Passed ledger.old interval.now.standing interval.now.scanned.file.bytes.now interval.now.scanned.file.header }
    requires rows_in_bounds { result_bytes interval.now.scanned.file.header.rows ≤ length res.old }
    requires days_few { interval.now.scanned.file.header.days ≤ leap_year }
    requires pool_small { pool (assessed_file ledger.old interval.now.scanned.file.bytes.now) ≤ most_cents }
    ensures ledger_after { ledger.new
        ≡ written (ledger_words (settled_ledger ledger.old interval.now.scanned.file.bytes.now)) ledger.old }
    ensures res_after { res.new
        ≡ written (result_words (assessed_file ledger.old interval.now.scanned.file.bytes.now)) res.old }
{
    let s = interval.standing;
    let h = interval.scanned.file.header;
    let sums = charge_rows(ledger, interval, res);
    let pool = s.carried.plus(sums.charges);
    let share = Share {
        pool,
        bonus: sums.bonus,
    };
    let credits = post_rows(ledger, s, interval.scanned, share, res);
    let carried = pool.minus(credits);
    let summary = Summary {
        ratio: interval.ratio,
        sums,
        credits,
        carried,
        rows: h.rows,
    };
    write_summary(res, summary);
    let standing = Standing {
        earliest: h.interval + 1,
        carried,
        ..s
    };
    write_standing(ledger, standing);
}

// Settles an interval file, or answers the first ground of 6 to 16 and 18 that applies, in checking order,
// and leaves ledger and result as they were.
pub fn settle_file(ledger: &mut [u8], file: &[u8], res: &mut [u8]) -> Result<(), Refusal>
    ensures answer { answer_of result ≡ (settling_of ledger.old file.now res.old).refusal }
    ensures ledger_bytes { ledger.new ≡ (settling_of ledger.old file.now res.old).ledger }
    ensures result_bytes { res.new ≡ (settling_of ledger.old file.now res.old).result }
{
    let Some(held) = Ledger::of(ledger) else {
        return Err(Refusal::NotALedger);
    };
    if not_a_file(file) {
        return Err(Refusal::NotAFile);
    }
    let scanned = later_grounds(held, file, header_of(file), res)?;
    let interval = Interval {
        standing: held.standing,
        scanned,
        ratio: ratio_of(&scanned),
    };
    if pool_too_large(ledger, &interval) {
        return Err(Refusal::PoolTooLarge);
    }
    write_settled(ledger, &interval, res);
    Ok(())
}
