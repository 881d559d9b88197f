// Ground 6: the ledger that a buffer holds, if it does. Each number is bounded before it is multiplied or summed.

ghost use Rattle.std.specs.Prelude.{◌≡◌, true, false, ◌||◌, ◌*◌, ◌≤◌, length, ltb, MatchOption};
ghost use Rattle.words.specs.Lists.{any};
ghost use Rattle.words.specs.Grounds.{outside};
ghost use Rattle.reading.specs.Block.{most_ids, terms_outside, ids_out_of_order};
ghost use Rattle.reading.specs.Interval.{intervals_per_day};
ghost use Rattle.reading.specs.Values.{terms_in};
ghost use Rattle.assessment.specs.Assessment.{most_cents};
ghost use Rattle.assessment.specs.Values.{account_in};
ghost use Rattle.ledger.specs.Ledger.{
  standing_of,
  ledger_bytes,
  ledger_of,
  ids_in,
  ledger_terms_outside,
  account_outside,
  does_not_close,
  not_a_ledger,
};
ghost use Rattle.ledger.specs.Values.{standing_in, LedgerRead};

use crate::layout::{Accounts, Standing, account_at, ledger_bytes, not_laid_out, standing_of};
use assessment::account::{Account, MOST_KILOWATTS, limit};
use assessment::units::{Cents, Quantity};
use reading::block::{MOST_IDS, Terms, terms_outside, year_outside};
use reading::header::INTERVALS_PER_DAY;

// The most cents carried, and so of a pool.
pub const MOST_CARRIED: Cents = Cents(1099511627775);

const MOST_CREDITED: Cents = Cents(224870400000000);

// Whether no ledger has these terms: as ground 2 has them, and a year, other than 0, as ground 23 does.
// Here and below each test returns, so that a proof of its own says what it decides.
fn terms_refused(terms: Terms) -> bool
    ensures { result ≡ ledger_terms_outside (terms_in terms) }
{
    if terms_outside(terms) {
        return true;
    }
    if terms.year == 0 {
        return false;
    }
    year_outside(terms)
}

// Whether the terms, the number of accounts, the earliest interval or the cents carried are out of range,
// or the accounts do not fit.
#[tactic(auto, unfolding(crate::specs::Ledger::ledger_bytes))]
fn standing_outside(ledger: &[u8], s: Standing) -> bool
    ensures { result ≡ (ledger_terms_outside (terms_in s.terms) || outside 1 most_ids s.accounts
        || ltb (length ledger.now) (ledger_bytes s.accounts)
        || ltb (intervals_per_day * s.terms.days) s.earliest || ltb most_cents s.carried.0) }
{
    let terms = s.terms;
    if terms_refused(terms) {
        return true;
    }
    if s.accounts < 1 {
        return true;
    }
    if MOST_IDS < s.accounts {
        return true;
    }
    if ledger.len() < ledger_bytes(s.accounts) {
        return true;
    }
    if INTERVALS_PER_DAY * terms.days < s.earliest {
        return true;
    }
    MOST_CARRIED < s.carried
}

// Whether an account's commitment, charged sum or credited sum is too large.
#[tactic(auto, unfolding(crate::specs::Ledger::account_outside, assessment::specs::Values::account_in))]
fn account_outside(terms: Terms, a: Account) -> bool
    requires { terms_outside (terms_in terms) ≡ false }
    ensures { result ≡ account_outside (terms_in terms) (account_in a) }
{
    if MOST_KILOWATTS < a.largest {
        return true;
    }
    if limit(terms, a.largest) < a.charged {
        return true;
    }
    MOST_CREDITED < a.credited
}

// Whether ids do not rise from above 0 on, an account is outside its bounds,
// or charged sums are not credited sums plus carried.
#[tactic(auto, unfolding(crate::specs::Ledger::ledger_bytes))]
fn accounts_refused(accounts: Accounts, s: Standing) -> bool
    requires says { standing_in s ≡ standing_of accounts.bytes.now }
    requires terms_inside { terms_outside (terms_in s.terms) ≡ false }
    requires carried_inside { s.carried.0 ≤ most_cents }
    ensures { let l = ledger_of accounts.entry.bytes.now in
        result ≡ (ids_out_of_order (ids_in l) || any (account_outside l.terms) l.accounts || does_not_close l) }
{
    let terms = s.terms;
    let mut last = 0;
    let mut charged = Cents(0);
    let mut credited = s.carried;
    for j in 0..accounts.count {
        let a = account_at(accounts.bytes, j);
        if a.id <= last {
            return true;
        }
        if account_outside(terms, a) {
            return true;
        }
        last = a.id;
        charged = charged.plus(a.charged);
        credited = credited.plus(a.credited);
    }
    charged != credited
}

// A buffer that ground 6 does not refuse, with what stands before its accounts.
#[derive(Clone, Copy)]
pub struct Ledger<'a> {
    pub bytes: &'a [u8],
    pub standing: Standing,
    pub ghost read: { LedgerRead bytes.now standing },
}

impl<'a> Ledger<'a> {
    // The ledger that a buffer holds, or None where ground 6 refuses it.
    #[tactic(auto, using(crate::proofs::GroundSixLaws::tests), unfolding(reading::specs::Values::terms_in))]
    pub fn of(bytes: &'a [u8]) -> Option<Self>
        ensures { MatchOption result (not_a_ledger bytes.now ≡ true)
            (λ l. (not_a_ledger bytes.now ≡ false) × (l.bytes.now ≡ bytes.now)) }
    {
        if not_laid_out(bytes) {
            return None;
        }
        let standing = standing_of(bytes);
        if standing_outside(bytes, standing) {
            return None;
        }
        let accounts = Accounts {
            bytes,
            count: standing.accounts,
        };
        if accounts_refused(accounts, standing) {
            return None;
        }
        Some(Ledger { bytes, standing })
    }

    // The ledger of a buffer that is known to hold one: nothing is tested.
    pub fn held(bytes: &'a [u8]) -> Self
        requires { not_a_ledger bytes.now ≡ false }
        ensures { result.bytes.now ≡ bytes.now }
    {
        Ledger {
            bytes,
            standing: standing_of(bytes),
        }
    }

    // Its accounts.
    pub fn accounts(self) -> Accounts<'a>
        ensures bytes_value { result.bytes.now ≡ self.entry.bytes.now }
        ensures count_value { result.count ≡ self.entry.standing.accounts }
    {
        Accounts {
            bytes: self.bytes,
            count: self.standing.accounts,
        }
    }
}
