// The ledger's words, read from the caller's buffer and written into it as values.
// No other module knows where a word of it stands.

ghost use Rattle.std.specs.Prelude.{◌≡◌, ◌||◌, ◌∷◌, [], ◌+◌, ◌≤◌, ◌<◌, length, drop, ltb};
ghost use Rattle.words.specs.Words.{written, written_at};
ghost use Rattle.reading.specs.Block.{most_ids};
ghost use Rattle.assessment.specs.Values.{account_in};
ghost use Rattle.ledger.specs.Ledger.{
  ledger_header_bytes,
  standing_of,
  ledger_bytes,
  account_at,
  account_count,
  standing_words,
  account_words,
  not_laid_out,
};
ghost use Rattle.ledger.specs.Values.{standing_in};

use assessment::account::Account;
use assessment::units::{Cents, Kilowatts};
use reading::block::{MOST_IDS, Terms};
use words::{Word, store};

// A ledger has this one format, so that there is no kind to tell apart.
const LEDGER_FORMAT: u64 = 1;

const ACCOUNTS_OFFSET: u64 = 8;

const STANDING_BYTES: usize = 64;

const ACCOUNT_BYTES: usize = 32;

// Bytes of a ledger of the most accounts.
pub const MOST_LEDGER_BYTES: usize = STANDING_BYTES + ACCOUNT_BYTES * MOST_IDS;

// What stands before the accounts: the terms, the earliest interval still accepted,
// the cents carried and the number of accounts.
#[derive(Clone, Copy)]
pub struct Standing {
    pub terms: Terms,
    pub earliest: u64,
    pub carried: Cents,
    pub accounts: usize,
}

// The accounts behind what stands before them, so many as it says.
#[derive(Clone, Copy)]
pub struct Accounts<'a> {
    pub bytes: &'a [u8],
    pub count: usize,
    pub ghost counted: { count ≡ account_count bytes.now },
    pub ghost few: { count ≤ most_ids },
    pub ghost room: { ledger_bytes count ≤ length bytes.now },
}

// Bytes of a ledger of so many accounts, and so where the next account begins.
#[tactic(auto, unfolding(crate::specs::Ledger::ledger_bytes))]
pub fn ledger_bytes(accounts: usize) -> usize
    requires { ledger_bytes accounts ≤ usize.MAX }
    ensures { result ≡ ledger_bytes accounts }
{
    STANDING_BYTES + ACCOUNT_BYTES * accounts
}

// Whether a buffer is too short for what stands before the accounts, or word 0 or 6 is not as laid out.
pub fn not_laid_out(ledger: &[u8]) -> bool
    ensures { result ≡ (ltb (length ledger.now) ledger_header_bytes || not_laid_out ledger.now) }
{
    if ledger.len() < STANDING_BYTES {
        return true;
    }
    if u64::number(ledger, 0) != LEDGER_FORMAT {
        return true;
    }
    u64::number(ledger, 48) != ACCOUNTS_OFFSET
}

// What stands before the accounts.
pub fn standing_of(ledger: &[u8]) -> Standing
    requires { ledger_header_bytes ≤ length ledger.now }
    ensures { standing_in result ≡ standing_of ledger.now }
{
    let terms = Terms {
        net_cone: u64::number(ledger, 8),
        days: u64::number(ledger, 16),
        year: u64::number(ledger, 56),
    };
    Standing {
        terms,
        earliest: u64::number(ledger, 24),
        carried: Cents(u64::number(ledger, 32)),
        // A size has 64 bits here: a conversion that can fail would test what always holds.
        accounts: u64::number(ledger, 40) as usize,
    }
}

// That the buffer has room for account j, the functions below require: a pass writes accounts between its reads,
// so that no value can hold it throughout.

// The id of account j.
#[tactic(auto, unfolding(crate::specs::Ledger::ledger_bytes))]
pub fn account_id(ledger: &[u8], j: usize) -> u64
    requires { ledger_bytes (j + 1) ≤ length ledger.now }
    ensures { result ≡ (account_at (drop (ledger_bytes j) ledger.now)).id }
{
    u64::number(ledger, ledger_bytes(j))
}

// Account j.
#[tactic(auto, unfolding(crate::specs::Ledger::ledger_bytes))]
pub fn account_at(ledger: &[u8], j: usize) -> Account
    requires { ledger_bytes (j + 1) ≤ length ledger.now }
    ensures { account_in result ≡ account_at (drop (ledger_bytes j) ledger.now) }
{
    let at = ledger_bytes(j);
    Account {
        id: u64::number(ledger, at),
        largest: Kilowatts(u64::number(ledger, at + 8)),
        charged: Cents(u64::number(ledger, at + 16)),
        credited: Cents(u64::number(ledger, at + 24)),
    }
}

// Writes the eight words before the accounts.
pub fn write_standing(ledger: &mut [u8], s: Standing)
    requires { ledger_header_bytes ≤ length ledger.old }
    ensures { ledger.new ≡ written (standing_words (standing_in s)) ledger.old }
{
    let terms = s.terms;
    let words = [
        LEDGER_FORMAT,
        terms.net_cone,
        terms.days,
        s.earliest,
        s.carried.0,
        // Nothing is lost: a size has 64 bits here.
        s.accounts as u64,
        ACCOUNTS_OFFSET,
        terms.year,
    ];
    store::<u64>(&words, ledger);
}

// Writes account j.
#[tactic(auto, unfolding(crate::specs::Ledger::ledger_bytes))]
pub fn write_account(ledger: &mut [u8], j: usize, a: Account)
    requires { ledger_bytes (j + 1) ≤ length ledger.old }
    ensures { ledger.new ≡ written_at (ledger_bytes j) (account_words (account_in a ∷ [])) ledger.old }
{
    let words = [a.id, a.largest.0, a.charged.0, a.credited.0];
    let at = ledger_bytes(j);
    store::<u64>(&words, &mut ledger[at..]);
}
