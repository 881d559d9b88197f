// Grounds 8 to 15 of a call of settling: all that need a ledger and a file but no charges.

ghost use Rattle.std.specs.Prelude.{◌≡◌, IfOk};
ghost use Rattle.words.specs.Grounds.{answered};
ghost use Rattle.words.specs.Refusals.{answer_of};
ghost use Rattle.reading.specs.Interval.{rows_of};
ghost use Rattle.reading.specs.Values.{terms_in, header_in, HeaderRead};
ghost use Rattle.ledger.specs.Ledger.{ledger_of};
ghost use Rattle.settling.specs.Settling.{other_terms, row_ids_unknown, later_grounds};

use crate::result::result_bytes;
use ledger::ground_six::Ledger;
use ledger::walk::Walk;
use reading::block::Terms;
use reading::file::File;
use reading::header::{Header, header_outside};
use reading::sound::ScannedFile;
use words::refusal::Refusal;

// Ground 8. Each test returns, so that a proof of its own says what it decides.
fn other_terms(terms: Terms, h: Header) -> bool
    ensures { result ≡ other_terms (terms_in terms) (header_in h) }
{
    if h.net_cone != terms.net_cone {
        return true;
    }
    h.days != terms.days
}

// Ground 12, of a ledger whose ids rise: a row whose id does not rise, or has no account,
// is not found before the accounts end.
fn row_ids_unknown(ledger: Ledger, file: &File<'_>) -> bool
    ensures { result ≡ row_ids_unknown (ledger_of ledger.entry.bytes.now) (rows_of file.now.bytes.now) }
{
    let rows = file.header.rows;
    let accounts = ledger.accounts();
    let mut walk = Walk::start(rows, accounts.count);
    for i in 0..rows {
        walk = walk.to(accounts, file.row(i).id);
        if walk.ended(accounts.count) {
            return true;
        }
        walk = walk.on();
    }
    false
}

// The file, if none of grounds 8 to 15 refuses it with a ledger and a result, or else the first that does.
#[tactic(auto, using(crate::proofs::SettlingTests::later))]
pub fn later_grounds<'a>(
    ledger: Ledger,
    file: &'a [u8],
    h: Header,
    res: &[u8],
) -> Result<ScannedFile<'a>, Refusal>
    requires { HeaderRead file.now h }
    ensures answer { answer_of result ≡ answered (later_grounds ledger.entry.bytes.now file.entry.now res.now) }
    ensures scanned { IfOk result (λ scanned. (scanned.file.bytes.now ≡ file.entry.now) × (scanned.file.header ≡ h)) }
{
    let s = ledger.standing;
    if other_terms(s.terms, h) {
        return Err(Refusal::OtherTerms);
    }
    if header_outside(h) {
        return Err(Refusal::HeaderOutside);
    }
    if h.interval < s.earliest {
        return Err(Refusal::TooEarly);
    }
    let Some(tabled) = File::of(file, h) else {
        return Err(Refusal::TablesMisplaced);
    };
    if row_ids_unknown(ledger, &tabled) {
        return Err(Refusal::IdsUnknown);
    }
    let scanned = tabled.scanned()?;
    if res.len() < result_bytes(h.rows) {
        return Err(Refusal::ResultTooShort);
    }
    Ok(scanned)
}
