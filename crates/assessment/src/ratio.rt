// The balancing ratio, and the share of a pool: each product is divided, and rounded down, once.

ghost use Rattle.std.specs.Prelude.{◌≡◌, cond, ◌*◌, ◌/◌, ◌≤◌, ◌<◌, ◌^◌, eqb};
ghost use Rattle.reading.specs.Interval.{most_kilowatts};
ghost use Rattle.assessment.specs.Assessment.{
  most_cents,
  most_actual,
  most_numerator,
  portion as portion_of,
  printed_ratio,
  share as share_of,
};

use crate::units::{Cents, Kilowatts};

// The ratio is printed in millionths.
const MILLIONTHS: u64 = 1000000;

// The two sides of the balancing ratio.
#[derive(Clone, Copy)]
pub struct Ratio {
    pub numerator: Kilowatts,
    pub denominator: Kilowatts,
    pub ghost numerator_limit: { numerator.0 ≤ most_numerator },
}

// The cents that a total bonus shares.
#[derive(Clone, Copy)]
pub struct Share {
    pub pool: Cents,
    pub bonus: Kilowatts,
    pub ghost pool_limit: { pool.0 ≤ most_cents },
}

// A product over a divisor, rounded down once, and 0 without a divisor.
fn quotient(x: u64, y: u64, d: u64) -> u64
    requires { x * y < 2 ^ 64 }
    ensures { result ≡ cond (eqb d 0) 0 (x * y / d) }
{
    (x * y).checked_div(d).unwrap_or(0)
}

impl Ratio {
    ghost use Rattle.assessment.specs.Values.{ratio_in};

    // The ratio's part of a whole: never more than the whole, and none without a denominator.
    #[tactic(auto, unfolding(crate::specs::Assessment::portion, crate::specs::Values::ratio_in))]
    fn part_of(self, whole: u64) -> u64
        requires { whole ≤ most_kilowatts }
        ensures { result ≡ portion_of (ratio_in self) whole }
    {
        quotient(whole, self.numerator.0, self.denominator.0).min(whole)
    }

    // The ratio's part of some kW.
    pub fn portion(self, kw: Kilowatts) -> Kilowatts
        requires { kw.0 ≤ most_kilowatts }
        ensures { result.0 ≡ portion_of (ratio_in self) kw.0 }
    {
        Kilowatts(self.part_of(kw.0))
    }

    // The printed ratio.
    #[tactic(auto, unfolding(crate::specs::Assessment::printed_ratio))]
    pub fn millionths(self) -> u64
        ensures { result ≡ printed_ratio (ratio_in self) }
    {
        self.part_of(MILLIONTHS)
    }
}

impl Share {
    // Credit, for some of the bonus; nothing with no bonus.
    #[tactic(auto, unfolding(crate::specs::Assessment::share))]
    pub fn credit(self, bonus: Kilowatts) -> Cents
        requires { bonus.0 ≤ most_actual }
        ensures { result.0 ≡ share_of self.pool.0 self.bonus.0 bonus.0 }
    {
        Cents(quotient(bonus.0, self.pool.0, self.bonus.0))
    }
}
