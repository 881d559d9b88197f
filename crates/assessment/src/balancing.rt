// The two sides of the ratio of a file, in one pass over its rows.

ghost use Rattle.std.specs.Prelude.{◌≡◌, false, ◌≤◌};
ghost use Rattle.reading.specs.Interval.{most_imports, header_of, header_outside, rows_of};
ghost use Rattle.reading.specs.Values.{header_in};
ghost use Rattle.assessment.specs.Assessment.{import_share, ratio_of};
ghost use Rattle.assessment.specs.Values.{ratio_in};

use crate::ratio::Ratio;
use crate::row::{denominator_share, numerator_share};
use crate::units::{Kilowatts, Quantity};
use reading::header::Header;
use reading::sound::ScannedFile;

// What the net imports add to the numerator: only when region-wide, if positive.
#[tactic(auto, using(crate::proofs::ValueBounds::net_imports), unfolding(crate::proofs::Opened::import_rule))]
fn import_share(h: Header) -> Kilowatts
    requires { header_outside (header_in h) ≡ false }
    ensures result_value { result.0 ≡ import_share (header_in h) }
    ensures result_le_most_imports { result.0 ≤ most_imports }
{
    if h.region_wide == 1 {
        return Kilowatts::or_zero(h.imports);
    }
    Kilowatts(0)
}

// The ratio of a file that no ground of reading refuses.
pub fn ratio_of(scanned: &ScannedFile<'_>) -> Ratio
    requires { header_outside (header_in scanned.now.file.header) ≡ false }
    ensures { let f = scanned.now.file.bytes.now in ratio_in result ≡ ratio_of (header_of f) (rows_of f) }
{
    let h = scanned.file.header;
    let mut numerator = import_share(h);
    let mut denominator = Kilowatts(0);
    for i in 0..h.rows {
        let row = scanned.row(i);
        numerator = numerator.plus(numerator_share(&row));
        denominator = denominator.plus(denominator_share(row.words));
    }
    Ratio {
        numerator,
        denominator,
    }
}
