// What a curve says at an LMP.

ghost use Rattle.std.specs.Prelude.{
  ◌≡◌,
  true,
  false,
  List,
  ◌∷◌,
  [],
  ◌+◌,
  ◌*◌,
  ◌/◌,
  ◌≤◌,
  ◌<◌,
  ◌^◌,
  length,
  ltb,
  nat_abs,
  ◌-ℤ◌,
  MatchOption,
};
ghost use Rattle.std.specs.Int.Signed.{le_z, mag};
ghost use Rattle.reading.specs.Interval.{Schedule, point_bytes, points_in, row_with};
ghost use Rattle.reading.specs.Values.{row_in, point_in};
ghost use Rattle.assessment.specs.Assessment.{from_last_reached, along_curve, minimum_online, scheduled_by, first_kw};
ghost use Rattle.assessment.specs.Values.{LastReached};

use crate::units::{Kilowatts, Quantity};
use reading::curve::Curve;
use reading::rows::{Point, Row};

// Which of a curve's points is the last one priced at or below the LMP.
// The search goes down from the final point, so that the first one met is the last of equal prices too.
#[tactic(auto, using(crate::proofs::CurveLaws::unreached))]
fn last_reached(curve: &Curve<'_>, lmp: i64) -> Option<usize>
    ensures { MatchOption result
        (from_last_reached lmp (points_in curve.now.count curve.now.points.now) ≡ [])
        (LastReached lmp curve.now.count curve.now.points.now) }
{
    for i in (0..curve.count).rev() {
        if curve.point(i).price <= lmp {
            return Some(i);
        }
    }
    None
}

// How far a stands above b: a difference of signed numbers that is not negative. The order is known, so that it is
// taken without the test that abs_diff makes.
fn gap(a: i64, b: i64) -> u64
    requires order { le_z b a ≡ true }
    requires a_bound { mag a < 2 ^ 62 }
    requires b_bound { mag b < 2 ^ 62 }
    ensures { result ≡ nat_abs (a -ℤ b) }
{
    (a - b) as u64
}

// From a base on, a part of the whole way along a rise, rounded down.
fn along(base: Kilowatts, part: u64, rise: Kilowatts, whole: u64) -> Kilowatts
    requires base_bound { base.0 < 2 ^ 32 }
    requires part_lt_whole { part < whole }
    requires rise_bound { rise.0 < 2 ^ 32 }
    requires whole_bound { whole ≤ 2 ^ 32 }
    ensures { result.0 ≡ base.0 + part * rise.0 / whole }
{
    base.plus(Kilowatts(part * rise.0 / whole))
}

// On from a point, the last one reached, towards the next in proportion to price.
// The next is priced above the LMP, so that the divisor is not 0.
#[tactic(auto, unfolding(crate::proofs::Opened::points_along))]
fn towards(p: Point, next: Point, lmp: i64) -> Kilowatts
    requires price_bound { mag p.price < 2 ^ 31 }
    requires next_price_bound { mag next.price < 2 ^ 31 }
    requires kw_bound { p.kw < 2 ^ 32 }
    requires next_kw_bound { next.kw < 2 ^ 32 }
    requires reached { le_z p.price lmp ≡ true }
    requires next_not_reached { le_z next.price lmp ≡ false }
    ensures { result.0 ≡ along_curve lmp (point_in p ∷ point_in next ∷ []) }
{
    let from = Kilowatts(p.kw);
    let more = Kilowatts(next.kw).minus(from);
    along(from, gap(lmp, p.price), more, gap(next.price, p.price))
}

// The kW on the curve at the LMP, 0 if no point is reached.
#[tactic(auto, using(crate::proofs::CurveLaws::along_next), unfolding(crate::proofs::Opened::points_along))]
fn on_curve(curve: &Curve<'_>, lmp: i64) -> Kilowatts
    ensures { result.0 ≡ along_curve lmp (from_last_reached lmp (points_in curve.now.count curve.now.points.now)) }
{
    let Some(i) = last_reached(curve, lmp) else {
        return Kilowatts(0);
    };
    let last = curve.point(i);
    if i + 1 == curve.count {
        return Kilowatts(last.kw);
    }
    towards(last, curve.point(i + 1), lmp)
}

// The economic minimum if online, else 0.
#[tactic(auto, unfolding(crate::proofs::Opened::row_words, crate::specs::Assessment::minimum_online))]
fn minimum_online(row: Row) -> Kilowatts
    ensures { (ss : List Schedule) → result.0 ≡ minimum_online (row_with (row_in row) ss) }
{
    if row.online == 1 {
        return Kilowatts(row.minimum);
    }
    Kilowatts(0)
}

// Scheduled, of a row by the curve of one of its schedules.
pub fn scheduled(row: Row, curve: &Curve<'_>) -> Kilowatts
    requires { 0 < curve.now.count }
    ensures { (ss : List Schedule) →
        result.0 ≡ scheduled_by (points_in curve.now.count curve.now.points.now) (row_with (row_in row) ss) }
{
    let lmp = row.lmp;
    let least = minimum_online(row);
    let most = Kilowatts(row.maximum);
    if lmp < curve.point(0).price {
        return least;
    }
    if curve.point(curve.count - 1).price < lmp {
        return most;
    }
    on_curve(curve, lmp).max(least).min(most)
}

// Whether the last of a curve's points at or below the LMP is above 0 kW.
#[tactic(auto, using(crate::proofs::CurveLaws::first_reached), unfolding(crate::specs::Assessment::first_kw))]
pub fn consumes(curve: &Curve<'_>, lmp: i64) -> bool
    ensures { result ≡ ltb 0 (first_kw (from_last_reached lmp (points_in curve.now.count curve.now.points.now))) }
{
    match last_reached(curve, lmp) {
        Some(i) => 0 < curve.point(i).kw,
        None => false,
    }
}
