// Opening: from an opening block to a ledger.

ghost use Rattle.std.specs.Prelude.{◌≡◌, map, ◌≤◌, length, IfOk};
ghost use Rattle.words.specs.Words.{written, written_at};
ghost use Rattle.words.specs.Grounds.{answered};
ghost use Rattle.words.specs.Refusals.{answer_of};
ghost use Rattle.reading.specs.Block.{block_of};
ghost use Rattle.assessment.specs.Assessment.{empty_account};
ghost use Rattle.ledger.specs.Ledger.{ledger_header_bytes, ledger_bytes, account_words, ledger_words};
ghost use Rattle.ledger.specs.Opening.{opening_grounds, opened_ledger, opening as opening_of};

use crate::layout::{Standing, ledger_bytes, write_account, write_standing};
use assessment::account::Account;
use assessment::units::Cents;
use reading::block::{block_of, not_a_block, terms_outside, year_unknown};
use reading::listed::ListedBlock;
use words::refusal::Refusal;

// A block that the buffer has room for, or the first of grounds 1, 2, 23, 3, 4 and 5 that applies.
#[tactic(auto, using(crate::proofs::OpeningLaws::tests))]
fn accepted<'a>(block: &'a [u8], ledger: &[u8]) -> Result<ListedBlock<'a>, Refusal>
    ensures answer { answer_of result ≡ answered (opening_grounds block.entry.now ledger.now) }
    ensures bytes { IfOk result (λ listed. listed.bytes.now ≡ block.entry.now) }
{
    if not_a_block(block) {
        return Err(Refusal::NotABlock);
    }
    let b = block_of(block);
    if terms_outside(b.terms) {
        return Err(Refusal::TermsOutside);
    }
    if year_unknown(b) {
        return Err(Refusal::YearUnknown);
    }
    let Some(listed) = ListedBlock::of(block, b) else {
        return Err(Refusal::IdsMisplaced);
    };
    if listed.ids_out_of_order() {
        return Err(Refusal::IdsOutOfOrder);
    }
    if ledger.len() < ledger_bytes(b.ids) {
        return Err(Refusal::LedgerTooShort);
    }
    Ok(listed)
}

// Writes an account for each id, with nothing in it.
#[tactic(auto, unfolding(crate::specs::Ledger::ledger_bytes))]
fn write_accounts(listed: &ListedBlock<'_>, ledger: &mut [u8])
    requires { ledger_bytes listed.now.block.ids ≤ length ledger.old }
    ensures { ledger.new
        ≡ written_at ledger_header_bytes (account_words (map empty_account (block_of listed.now.bytes.now).ids))
        ledger.old }
{
    for i in 0..listed.block.ids {
        write_account(ledger, i, Account::empty(listed.id(i)));
    }
}

// Writes the ledger of a block that no ground refuses.
fn write_opened(listed: &ListedBlock<'_>, ledger: &mut [u8])
    requires { ledger_bytes listed.now.block.ids ≤ length ledger.old }
    ensures { ledger.new ≡ written (ledger_words (opened_ledger listed.now.bytes.now)) ledger.old }
{
    let b = listed.block;
    let standing = Standing {
        terms: b.terms,
        earliest: 0,
        carried: Cents(0),
        accounts: b.ids,
    };
    write_standing(ledger, standing);
    write_accounts(listed, ledger);
}

// Opens a ledger, or answers the first ground of opening that applies and leaves the ledger as it was.
pub fn open(block: &[u8], ledger: &mut [u8]) -> Result<(), Refusal>
    ensures answer { answer_of result ≡ (opening_of block.now ledger.old).refusal }
    ensures buffer { ledger.new ≡ (opening_of block.now ledger.old).ledger }
{
    let listed = accepted(block, ledger)?;
    write_opened(&listed, ledger);
    Ok(())
}
