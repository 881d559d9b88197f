// What a row's schedules say at its LMP: what a bonus is cut to, what the economic rule takes,
// whether PRD is considered.

ghost use Rattle.std.specs.Prelude.{◌≡◌, false, List, ◌<◌, length, ltb};
ghost use Rattle.reading.specs.Interval.{
  Schedule,
  schedules_named,
  schedule_at,
  schedule_of,
  row_with,
  row_outside,
};
ghost use Rattle.reading.specs.Kinds.{schedule_kind_number};
ghost use Rattle.reading.specs.Values.{row_in};
ghost use Rattle.assessment.specs.Assessment.{
  from_last_reached,
  dispatched_curve,
  scheduled as scheduled_of,
  first_kw,
  bonus_cut,
  looks_at,
  counted_for,
  economic_scheduled,
  available as available_of,
  considered as considered_of,
};
ghost use Rattle.assessment.specs.Values.{row_said};

use crate::curve::{consumes, scheduled};
use crate::units::{Kilowatts, Quantity};
use reading::rows::{Kind, Row, ScheduleKind};
use reading::sound::SoundRow;

// Of a row of kind 0 or 4: to what its actual is cut for the bonus, and the scheduled kW of the economic rule.
#[derive(Clone, Copy)]
pub struct Offer {
    pub cut: Kilowatts,
    pub economic: Kilowatts,
}

// Owned kW without both outages. It rests on ground 13 alone; a SoundRow asks for 18 and 14 too.
#[tactic(auto, using(crate::proofs::ValueBounds::outages_le), unfolding(crate::proofs::Opened::available_rule))]
pub fn available(row: Row) -> Kilowatts
    requires { row_outside (row_in row) ≡ false }
    ensures { (ss : List Schedule) → result.0 ≡ available_of (row_with (row_in row) ss) }
{
    let out = Kilowatts(row.planned).plus(Kilowatts(row.forced));
    Kilowatts(row.owned).minus(out)
}

// Whether the economic rule of a row dispatched on a schedule of one kind looks at one of another.
// On a cost schedule it looks at no other, even of its own kind.
#[tactic(auto, unfolding(crate::specs::Assessment::looks_at))]
fn looks_at(on: ScheduleKind, other: ScheduleKind) -> bool
    ensures { result ≡ looks_at (schedule_kind_number on) (schedule_kind_number other) }
{
    match on {
        ScheduleKind::Market => true,
        ScheduleKind::PriceBased => other != ScheduleKind::Market,
        ScheduleKind::Cost => false,
    }
}

// What schedule k of a row counts for the economic rule: its scheduled kW if that looks at it.
#[tactic(auto, using(crate::proofs::ScheduleLaws::counting), unfolding(crate::proofs::Opened::schedules))]
fn counted(row: &SoundRow<'_>, on: ScheduleKind, k: usize) -> Kilowatts
    requires { k < length (schedules_named row.now.file.bytes.now (row_in row.now.words)) }
    ensures { let f = row.now.file.bytes.now in
        result.0 ≡ counted_for (schedule_kind_number on) (row_said row.now)
        (schedule_of f (schedule_at f (row_in row.now.words) k)) }
{
    let other = row.schedule(k);
    if looks_at(on, other.kind()) {
        return scheduled(row.words, &row.curve(other));
    }
    Kilowatts(0)
}

// The highest of a row's own kW, by the schedule that it was dispatched on, and of what its others count.
#[tactic(auto, using(crate::proofs::ScheduleLaws::height), unfolding(reading::specs::Values::row_in))]
fn highest(row: &SoundRow<'_>, on: ScheduleKind, own: Kilowatts) -> Kilowatts
    requires dispatched_in_bounds { row.now.words.dispatched
        < length (schedules_named row.now.file.bytes.now (row_in row.now.words)) }
    requires on_value { schedule_kind_number on
        ≡ (schedule_at row.now.file.bytes.now (row_in row.now.words) row.now.words.dispatched).kind }
    requires own_value { own.0 ≡ scheduled_of (row_said row.now) }
    ensures { result.0 ≡ economic_scheduled (row_said row.now) }
{
    let count = row.schedules();
    if count == 1 {
        return own;
    }
    let mut most = own;
    for k in 0..count {
        if k != row.words.dispatched {
            most = most.max(counted(row, on, k));
        }
    }
    most
}

// A row's offer: bonus is cut to the kW of the schedule dispatched on, and the economic rule takes the highest.
// Without schedules, bonus is cut to what is available, and the economic rule takes the committed kW.
#[tactic(auto, using(crate::proofs::ScheduleLaws::some_points), unfolding(crate::proofs::Opened::schedules))]
pub fn offered(row: &SoundRow<'_>) -> Offer
    ensures cut_value { result.cut.0 ≡ bonus_cut (row_said row.now) }
    ensures economic_value { result.economic.0 ≡ economic_scheduled (row_said row.now) }
{
    let Some(on) = row.dispatched_on() else {
        return Offer {
            cut: available(row.words),
            economic: Kilowatts(row.words.committed),
        };
    };
    let own = scheduled(row.words, &row.curve(on));
    Offer {
        cut: own,
        economic: highest(row, on.kind(), own),
    }
}

// Whether a PRD row is considered: by the curve that it was dispatched on, without one not.
fn responds(row: &SoundRow<'_>) -> bool
    ensures { let r = row_said row.now in
        result ≡ ltb 0 (first_kw (from_last_reached r.lmp (dispatched_curve r))) }
{
    match row.dispatched_on() {
        Some(on) => consumes(&row.curve(on), row.words.lmp),
        None => false,
    }
}

// Whether a row is considered, by the kind word: a PRD row by its curve, an importer by the event, any other always.
#[tactic(auto, using(reading::proofs::KindWords::kind_low), unfolding(crate::proofs::Opened::by_kind))]
pub fn considered(row: &SoundRow<'_>) -> bool
    ensures { result ≡ considered_of row.now.file.header.region_wide (row_said row.now) }
{
    match row.words.kind {
        Kind::RESPONSIVE => responds(row),
        Kind::IMPORTER => row.file.header.region_wide == 1,
        _ => true,
    }
}
