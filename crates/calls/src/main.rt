// Document 01's listing, and the cases that it does not mark (P), through opening and settling as C calls them:
// each answer, and the words that a call leaves. The buffers begin with every byte 255.

#![tactic(auto)]

mod left;

ghost use Rattle.std.specs.Prelude.{◌≡◌, ◌≤◌, length};
ghost use Rattle.figures.specs.Room.{listing_ledger_bytes};
ghost use Rattle.settling.specs.Settling.{settling};
ghost use Rattle.settling.specs.Figures.{listing_file};

use figures::document::{block, file};
use figures::print::{figure, words};
use left::{ledger_words, result_words};
use npa::{npa_open, npa_settle};

// Settles the listing's file at an interval.
fn settle(ledger: &mut [u8], interval: u64, res: &mut [u8]) -> u64
    ensures answer { result ≡ (settling ledger.old (listing_file interval 0 0) res.old).refusal }
    ensures ledger_after { ledger.new
        ≡ (settling ledger.old (listing_file interval 0 0) res.old).ledger }
    ensures res_after { res.new
        ≡ (settling ledger.old (listing_file interval 0 0) res.old).result }
{
    u64::from(npa_settle(ledger, &file(interval), res))
}

// The listing: a result buffer a byte too short for its four rows is refused, one that just holds them is not.
fn listing(ledger: &mut [u8])
    requires { listing_ledger_bytes ≤ length ledger.old }
{
    let mut short = [255u8; 319];
    figure(
        b"01 interval 1000, 319 result bytes: ",
        settle(ledger, 1000, &mut short),
    );
    words(b"01 result as it was: ", &short, 8);
    words(b"01 ledger as it was: ", ledger, 8);
    let mut result = [255u8; 320];
    figure(
        b"01 interval 1000, 320 result bytes: ",
        settle(ledger, 1000, &mut result),
    );
    result_words(&result);
    ledger_words(ledger);
}

// The last interval of 365 days, one that is beyond it, and files a second time.
fn intervals(ledger: &mut [u8]) {
    let mut result = [255u8; 328];
    figure(
        b"01 interval 1000 again: ",
        settle(ledger, 1000, &mut result),
    );
    figure(b"01 interval 105120: ", settle(ledger, 105120, &mut result));
    figure(b"01 interval 105119: ", settle(ledger, 105119, &mut result));
    figure(
        b"01 interval 105119 again: ",
        settle(ledger, 105119, &mut result),
    );
    result_words(&result);
    words(b"01 beyond the rows: ", &result[320..], 1);
}

fn main() {
    let mut ledger = [255u8; 200];
    figure(b"01 opening: ", u64::from(npa_open(&block(), &mut ledger)));
    ledger_words(&ledger);
    listing(&mut ledger);
    intervals(&mut ledger);
    ledger_words(&ledger);
}
