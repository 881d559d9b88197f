// The six figures of a row, and what it adds to the ratio: a match on the kind word chooses expected, bonus cut,
// excusals and numerator share. The word is matched, as matches on the enum of it become a jump by a table, with which
// settling takes 6 % longer.

ghost use Rattle.std.specs.Prelude.{◌≡◌, false, List, ◌⊎◌, ◌+◌, ◌-◌, ◌≤◌, min};
ghost use Rattle.reading.specs.Interval.{most_kilowatts, Schedule, row_with, row_outside};
ghost use Rattle.reading.specs.Values.{row_in};
ghost use Rattle.assessment.specs.Assessment.{
  most_actual,
  actual as actual_of,
  expected as expected_of,
  bonus_cut,
  economic_rule,
  row_figures,
  numerator_share,
  denominator_share,
};
ghost use Rattle.assessment.specs.Values.{ratio_in, figures_in, row_said};

use crate::offer::{available, considered, offered};
use crate::ratio::Ratio;
use crate::units::{Kilowatts, Quantity};
use reading::rows::{Kind, Row};
use reading::sound::SoundRow;

// The first six words of a row in the result, 0 by default.
#[derive(Clone, Copy, Default)]
pub struct Figures {
    pub expected: Kilowatts,
    pub actual: Kilowatts,
    pub outage: Kilowatts,
    pub economic: Kilowatts,
    pub shortfall: Kilowatts,
    pub bonus: Kilowatts,
}

// Actual: metered plus adjustment, or 0 if that is negative. It rests on ground 13 alone; a SoundRow asks for 18 and 14
// too.
#[tactic(auto, using(crate::proofs::ValueBounds::net_kilowatts), unfolding(crate::proofs::Opened::actual_rule))]
fn actual(row: Row) -> Kilowatts
    requires { row_outside (row_in row) ≡ false }
    ensures result_value { (ss : List Schedule) → result.0 ≡ actual_of (row_with (row_in row) ss) }
    ensures result_le_most_actual { result.0 ≤ most_actual }
{
    Kilowatts::or_zero(row.metered + row.adjustment)
}

// Expected, by the kind word. It rests on ground 13 alone; a SoundRow asks for 18 and 14 too.
#[tactic(auto, using(crate::proofs::ValueBounds::committed_le), unfolding(crate::proofs::Opened::by_kind))]
fn expected(row: Row, ratio: Ratio) -> Kilowatts
    requires { row_outside (row_in row) ≡ false }
    ensures { (ss : List Schedule) → result.0 ≡ expected_of (ratio_in ratio) (row_with (row_in row) ss) }
{
    match row.kind {
        Kind::GENERATION => ratio.portion(Kilowatts(row.committed)),
        Kind::DEMAND | Kind::EFFICIENCY | Kind::RESPONSIVE => Kilowatts(row.committed),
        _ => Kilowatts(0),
    }
}

// The figures of a row of kind 0 or 4: its outage and the economic rule excuse it, and its actual is cut for the bonus.
// Economic is how far the least of emergency maximum, expected and available
// stands above the greater of scheduled and actual.
#[tactic(auto, unfolding(crate::proofs::Opened::by_kind, crate::specs::Assessment::economic_rule))]
fn produced(row: &SoundRow<'_>, act: Kilowatts, expect: Kilowatts) -> Figures
    requires { act.0 ≡ actual_of (row_said row.now) }
    ensures { let r = row_said row.now in
        figures_in result ≡ record {
          expected = expect.0;
          actual = act.0;
          outage = row.now.words.planned;
          economic = economic_rule r expect.0;
          shortfall = expect.0 - (act.0 + row.now.words.planned + economic_rule r expect.0);
          bonus = min act.0 (bonus_cut r) - expect.0;
        } }
{
    let words = row.words;
    let out = Kilowatts(words.planned);
    let most = Kilowatts(words.maximum).min(expect).min(available(words));
    let given = offered(row);
    let econ = most.minus(given.economic.max(act));
    Figures {
        expected: expect,
        actual: act,
        outage: out,
        economic: econ,
        shortfall: expect.minus(act).minus(out).minus(econ),
        bonus: act.min(given.cut).minus(expect),
    }
}

// The figures of a row that nothing excuses and whose actual is not cut.
#[tactic(auto, unfolding(crate::proofs::Opened::by_kind))]
fn unexcused(act: Kilowatts, expect: Kilowatts) -> Figures
    ensures { figures_in result ≡ record {
      expected = expect.0;
      actual = act.0;
      outage = 0;
      economic = 0;
      shortfall = expect.0 - act.0;
      bonus = act.0 - expect.0;
    } }
{
    Figures {
        expected: expect,
        actual: act,
        shortfall: expect.minus(act),
        bonus: act.minus(expect),
        ..Figures::default()
    }
}

// A row's figures at a ratio, by the kind word.
#[tactic(auto, unfolding(crate::proofs::Opened::by_kind))]
pub fn row_figures(row: &SoundRow<'_>, ratio: Ratio) -> Figures
    ensures { figures_in result
        ≡ row_figures row.now.file.header.region_wide (ratio_in ratio) (row_said row.now) }
{
    let act = actual(row.words);
    let expect = expected(row.words, ratio);
    match row.words.kind {
        Kind::GENERATION | Kind::ENERGY_ONLY => produced(row, act, expect),
        _ => {
            if considered(row) {
                return unexcused(act, expect);
            }
            Figures::default()
        }
    }
}

// What a demand or PRD row that is considered adds to the numerator: its bonus, of which the committed kW are expected.
// Apart from kinds 0 and 4, which most rows are of.
#[tactic(auto, unfolding(crate::proofs::Opened::by_kind))]
fn reduction(row: &SoundRow<'_>, act: Kilowatts) -> Kilowatts
    requires act_value { act.0 ≡ actual_of (row_said row.now) }
    requires not_producing { (row.now.words.kind ≡ 0) ⊎ (row.now.words.kind ≡ 4) → ⊥ }
    ensures { result.0 ≡ numerator_share row.now.file.header.region_wide (row_said row.now) }
{
    let over = act.minus(Kilowatts(row.words.committed));
    match row.words.kind {
        Kind::DEMAND => over,
        Kind::RESPONSIVE => {
            if considered(row) {
                return over;
            }
            Kilowatts(0)
        }
        _ => Kilowatts(0),
    }
}

// What a row adds to the numerator, by the kind word.
#[tactic(auto, unfolding(crate::proofs::Opened::by_kind))]
pub fn numerator_share(row: &SoundRow<'_>) -> Kilowatts
    ensures result_value { result.0 ≡ numerator_share row.now.file.header.region_wide (row_said row.now) }
    ensures result_le_most_actual { result.0 ≤ most_actual }
{
    let act = actual(row.words);
    match row.words.kind {
        Kind::GENERATION | Kind::ENERGY_ONLY => act,
        _ => reduction(row, act),
    }
}

// What a row adds to the denominator, by the kind word. It rests on ground 13 alone; a SoundRow asks for 18 and 14 too.
#[tactic(auto, using(crate::proofs::ValueBounds::committed_le), unfolding(crate::proofs::Opened::by_kind))]
pub fn denominator_share(row: Row) -> Kilowatts
    requires { row_outside (row_in row) ≡ false }
    ensures result_value { (ss : List Schedule) → result.0 ≡ denominator_share (row_with (row_in row) ss) }
    ensures result_le_most_kilowatts { result.0 ≤ most_kilowatts }
{
    match row.kind {
        Kind::GENERATION => Kilowatts(row.committed),
        _ => Kilowatts(0),
    }
}
