// An account of a ledger, its limit, and what a row does to it.

ghost use Rattle.std.specs.Prelude.{◌≡◌, false, ◌+◌, ◌≤◌, ◌<◌, ◌^◌};
ghost use Rattle.reading.specs.Block.{terms_outside};
ghost use Rattle.reading.specs.Interval.{most_kilowatts};
ghost use Rattle.reading.specs.Values.{terms_in};
ghost use Rattle.assessment.specs.Assessment.{
  empty_account,
  raised as raised_of,
  added as added_of,
  limit as limit_of,
  full_charge,
  charge as charge_of,
};
ghost use Rattle.assessment.specs.Values.{account_in};

use crate::units::{Cents, Kilowatts, Quantity};
use reading::block::{TRANSITION_YEAR, Terms};
use reading::scan::MOST_KILOWATTS as MOST_WORD;

// The most kW of a row or an account.
pub const MOST_KILOWATTS: Kilowatts = Kilowatts(MOST_WORD);

// A factor of the limit, only multiplied.
const LIMIT_FACTOR: u64 = 3;

// The divisors of the limit and of a charge, and those of 2016. Each division is by a constant, which is fast.
const LIMIT_DIVISOR: u64 = 2000;

const CHARGE_DIVISOR: u64 = 360000;

const TRANSITION_LIMIT_DIVISOR: u64 = 4000;

const TRANSITION_CHARGE_DIVISOR: u64 = 720000;

// An account: its id, the largest commitment so far, and the sums charged and credited.
#[derive(Clone, Copy)]
pub struct Account {
    pub id: u64,
    pub largest: Kilowatts,
    pub charged: Cents,
    pub credited: Cents,
}

// Terms and accounts are read before grounds 2 and 6 are ruled out, and tuple structs have no ghost fields:
// so each contract has the bounds of its terms and kW.

// The limit of a largest commitment, rounded down.
#[tactic(auto, using(crate::proofs::ValueBounds::limit_products), unfolding(crate::proofs::Opened::by_year))]
pub fn limit(terms: Terms, kw: Kilowatts) -> Cents
    requires terms_value { terms_outside (terms_in terms) ≡ false }
    requires kw_le_most_kilowatts { kw.0 ≤ most_kilowatts }
    ensures { result.0 ≡ limit_of (terms_in terms) kw.0 }
{
    let product = LIMIT_FACTOR * terms.net_cone * terms.days * kw.0;
    match terms.year {
        TRANSITION_YEAR => Cents(product / TRANSITION_LIMIT_DIVISOR),
        _ => Cents(product / LIMIT_DIVISOR),
    }
}

// The charge for a shortfall before the limit cuts it, to the nearest cent, half a cent upward.
#[tactic(auto, using(crate::proofs::ValueBounds::charge_products), unfolding(crate::proofs::Opened::by_year))]
fn full_charge(terms: Terms, short: Kilowatts) -> Cents
    requires terms_value { terms_outside (terms_in terms) ≡ false }
    requires short_le_most_kilowatts { short.0 ≤ most_kilowatts }
    ensures { result.0 ≡ full_charge (terms_in terms) short.0 }
{
    let product = short.0 * terms.net_cone * terms.days;
    match terms.year {
        TRANSITION_YEAR => Cents(
            (product + TRANSITION_CHARGE_DIVISOR / 2) / TRANSITION_CHARGE_DIVISOR,
        ),
        _ => Cents((product + CHARGE_DIVISOR / 2) / CHARGE_DIVISOR),
    }
}

impl Account {
    // An account of an id, with nothing in it.
    #[tactic(auto, unfolding(crate::specs::Assessment::empty_account, crate::specs::Values::account_in))]
    pub fn empty(id: u64) -> Account
        ensures { account_in result ≡ empty_account id }
    {
        Account {
            id,
            largest: Kilowatts(0),
            charged: Cents(0),
            credited: Cents(0),
        }
    }

    // The account with its largest commitment raised to so many kW, if that is larger.
    #[tactic(auto, unfolding(crate::specs::Assessment::raised, crate::specs::Values::account_in))]
    pub fn raised(self, kw: Kilowatts) -> Account
        ensures { account_in result ≡ raised_of kw.0 (account_in self) }
    {
        Account {
            largest: self.largest.max(kw),
            ..self
        }
    }

    // What a raised account is charged for a shortfall: cut to what is left under its limit.
    #[tactic(auto, unfolding(crate::specs::Assessment::charge, crate::specs::Values::account_in))]
    pub fn charge(self, terms: Terms, short: Kilowatts) -> Cents
        requires terms_value { terms_outside (terms_in terms) ≡ false }
        requires largest_le_most_kilowatts { self.largest.0 ≤ most_kilowatts }
        requires short_le_most_kilowatts { short.0 ≤ most_kilowatts }
        ensures { result.0 ≡ charge_of (terms_in terms) (account_in self) short.0 }
    {
        let left = limit(terms, self.largest).minus(self.charged);
        full_charge(terms, short).min(left)
    }

    // The account with a charge and a credit added.
    #[tactic(auto, unfolding(crate::specs::Assessment::added, crate::specs::Values::account_in))]
    pub fn added(self, charge: Cents, credit: Cents) -> Account
        requires charge_bound { self.charged.0 + charge.0 < 2 ^ 64 }
        requires credit_bound { self.credited.0 + credit.0 < 2 ^ 64 }
        ensures { account_in result ≡ added_of charge.0 credit.0 (account_in self) }
    {
        Account {
            charged: self.charged.plus(charge),
            credited: self.credited.plus(credit),
            ..self
        }
    }
}
