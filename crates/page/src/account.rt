// A plant's account in a ledger, found by the plant's id.

ghost use Rattle.std.specs.Prelude.{◌≡◌, eqb};
ghost use Rattle.words.specs.Lists.{any};
ghost use Rattle.assessment.specs.Assessment.{account_of};
ghost use Rattle.assessment.specs.Values.{account_in};
ghost use Rattle.ledger.specs.Ledger.{ledger_of, ids_in};
ghost use Rattle.ledger.specs.Values.{before};

use assessment::account::Account;
use ledger::ground_six::Ledger;
use ledger::layout::{Accounts, account_at};
use ledger::walk::Walk;

// Down the accounts of a ledger to an id, or past the last.
fn walk_to(accounts: Accounts, id: u64) -> Walk
    ensures { result.account ≡ before id (ids_in (ledger_of accounts.entry.bytes.now)) }
{
    Walk::start(1, accounts.count).to(accounts, id)
}

// Whether a ledger has an account of an id.
pub fn has_account(ledger: Ledger, id: u64) -> bool
    ensures { result ≡ any (λ i. eqb i id) (ids_in (ledger_of ledger.entry.bytes.now)) }
{
    let accounts = ledger.accounts();
    !walk_to(accounts, id).ended(accounts.count)
}

// The account of an id, or an empty one where there is none.
pub fn plant_account(ledger: Ledger, id: u64) -> Account
    ensures { account_in result ≡ account_of id (ledger_of ledger.entry.bytes.now).accounts }
{
    let accounts = ledger.accounts();
    let walk = walk_to(accounts, id);
    if walk.ended(accounts.count) {
        return Account::empty(id);
    }
    account_at(accounts.bytes, walk.account)
}
