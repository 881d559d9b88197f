// Rows and accounts both rise by id: a pass walks them side by side, once.

ghost use Rattle.std.specs.Prelude.{◌≡◌, ◌+◌, ◌-◌, ◌≤◌, ◌<◌, length, drop, leb};
ghost use Rattle.reading.specs.Block.{most_ids};
ghost use Rattle.reading.specs.Interval.{most_rows};
ghost use Rattle.ledger.specs.Ledger.{ledger_of, ids_in};
ghost use Rattle.ledger.specs.Values.{before};
ghost use Rattle.ledger.specs.Walk.{comparisons};

use crate::layout::{Accounts, account_id};

// How far a pass has come down the accounts, and how many comparisons of a row's id with an account's it has left.
#[derive(Clone, Copy)]
pub struct Walk {
    pub account: usize,
    pub budget: usize,
}

impl Walk {
    // At the first account, with as many comparisons as there are rows and accounts together.
    pub fn start(rows: usize, accounts: usize) -> Walk
        requires rows_few { rows ≤ most_rows }
        requires accounts_few { accounts ≤ most_ids }
        ensures account_value { result.account ≡ 0 }
        ensures budget_value { result.budget ≡ rows + accounts }
    {
        Walk {
            account: 0,
            budget: rows + accounts,
        }
    }

    // On to the account with an id, or past the last. A turn makes one comparison, and takes it from the budget first.
    // No other function compares a row's id with an account's.
    #[tactic(auto, unfolding(crate::specs::Ledger::ledger_bytes))]
    pub fn to(self, accounts: Accounts, id: u64) -> Walk
        requires account_within { self.account ≤ accounts.count }
        requires budget_suffices { comparisons id (drop self.account (ids_in (ledger_of accounts.bytes.now))) ≤ self.budget }
        ensures account_value { result.account
            ≡ self.account + before id (drop self.account (ids_in (ledger_of accounts.entry.bytes.now))) }
        ensures account_within { result.account ≤ accounts.entry.count }
        ensures budget_value { result.budget
            ≡ self.budget - comparisons id (drop self.account (ids_in (ledger_of accounts.entry.bytes.now))) }
    {
        let mut budget = self.budget;
        for j in self.account..accounts.count {
            budget -= 1;
            if account_id(accounts.bytes, j) == id {
                return Walk { account: j, budget };
            }
        }
        Walk {
            account: accounts.count,
            budget,
        }
    }

    // Past the account that it stands at.
    pub fn on(self) -> Walk
        requires { self.account < usize.MAX }
        ensures account_value { result.account ≡ self.account + 1 }
        ensures budget_value { result.budget ≡ self.budget }
    {
        Walk {
            account: self.account + 1,
            ..self
        }
    }

    // Whether none of so many accounts is left.
    pub fn ended(self, accounts: usize) -> bool
        ensures { result ≡ leb accounts self.account }
    {
        accounts <= self.account
    }
}
