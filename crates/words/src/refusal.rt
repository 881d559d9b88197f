// The grounds of refusal, and what a call that meets one answers.

ghost use Rattle.std.specs.Prelude.{◌≡◌};
ghost use Rattle.words.specs.Refusals.{ground_number, answer_of};

// A ground of the published list, with its number there.
#[derive(Clone, Copy, PartialEq, Eq, Debug)]
pub enum Refusal {
    NotABlock = 1,
    TermsOutside = 2,
    IdsMisplaced = 3,
    IdsOutOfOrder = 4,
    LedgerTooShort = 5,
    NotALedger = 6,
    NotAFile = 7,
    OtherTerms = 8,
    HeaderOutside = 9,
    TooEarly = 10,
    TablesMisplaced = 11,
    IdsUnknown = 12,
    RowOutside = 13,
    CurveOutside = 14,
    ResultTooShort = 15,
    PoolTooLarge = 16,
    OutsideRoster = 17,
    SchedulesOutside = 18,
    CountTooShort = 20,
    FileCut = 22,
    YearUnknown = 23,
}

impl Refusal {
    // Its number in the published list. An enum's number is read by `as`.
    pub fn number(self) -> u32
        ensures { result ≡ ground_number self }
    {
        self as u32
    }
}

// What a call answers: 0, or the number of the ground that refused it.
pub fn answer(outcome: Result<(), Refusal>) -> u32
    ensures { result ≡ answer_of outcome }
{
    match outcome {
        Ok(()) => 0,
        Err(refusal) => refusal.number(),
    }
}
