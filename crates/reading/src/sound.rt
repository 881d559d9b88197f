// A file that grounds 13, 18 and 14 do not refuse, and its rows.

ghost use Rattle.std.specs.Prelude.{◌≡◌, [], false, ◌<◌, length, MatchOption};
ghost use Rattle.reading.specs.Interval.{
  row_words_at,
  schedules_named,
  schedule_at,
  kind_outside,
  curve_part,
};
ghost use Rattle.reading.specs.Kinds.{kind_number};
ghost use Rattle.reading.specs.Values.{row_in, schedule_in, Dispatched, Sound, SoundCurve, Scanned};

use crate::curve::Curve;
use crate::file::File;
use crate::rows::{Kind, Row, Schedule};

// A file that these grounds do not refuse.
#[derive(Clone, Copy)]
pub struct ScannedFile<'a> {
    pub file: File<'a>,
    pub ghost scanned: { Scanned file.bytes.now },
}

impl<'a> ScannedFile<'a> {
    // Row i.
    pub fn row(&self, i: usize) -> SoundRow<'a>
        requires { i < self.now.file.header.rows }
        ensures file { result.file ≡ self.now.file }
        ensures words { row_in result.words ≡ row_words_at self.now.file.bytes.now i }
    {
        SoundRow {
            file: self.file,
            words: self.file.row(i),
        }
    }
}

// A row that they do not refuse, and its file.
#[derive(Clone, Copy)]
pub struct SoundRow<'a> {
    pub file: File<'a>,
    pub words: Row,
    pub ghost sound: { Sound file.bytes.now (row_in words) },
}

impl<'a> SoundRow<'a> {
    // Its kind.
    pub fn kind(&self) -> Kind
        ensures { kind_number result ≡ self.now.words.kind }
    {
        self.words.kind()
    }

    // How many schedules it has.
    pub fn schedules(&self) -> usize
        ensures { result ≡ length (schedules_named self.now.file.bytes.now (row_in self.now.words)) }
    {
        self.file.schedules(self.words)
    }

    // Its schedule k.
    #[tactic(auto, using(crate::proofs::SoundRows::schedules_lie, crate::proofs::SoundRows::kind_known, crate::proofs::SoundRows::schedule_sound))]
    pub fn schedule(&self, k: usize) -> Schedule
        requires { k < length (schedules_named self.now.file.bytes.now (row_in self.now.words)) }
        ensures value { schedule_in result ≡ schedule_at self.now.file.bytes.now (row_in self.now.words) k }
        ensures kind { kind_outside (schedule_in result) ≡ false }
        ensures sound { SoundCurve self.now.file.bytes.now (schedule_in result) }
    {
        self.file.schedule(self.words, k)
    }

    // The schedule that it was dispatched on, if it has any.
    #[tactic(auto, using(crate::proofs::SoundRows::kind_known, crate::proofs::SoundRows::schedule_sound))]
    pub fn dispatched_on(&self) -> Option<Schedule>
        ensures { MatchOption result (schedules_named self.now.file.bytes.now (row_in self.now.words) ≡ [])
            (λ s. Dispatched self.now.file.bytes.now (row_in self.now.words) s
            × (kind_outside (schedule_in s) ≡ false)
            × SoundCurve self.now.file.bytes.now (schedule_in s)) }
    {
        self.file.dispatched_on(self.words)
    }

    // The curve of one of its schedules.
    #[tactic(auto, using(crate::proofs::SoundRows::curve_lies))]
    pub fn curve(&self, s: Schedule) -> Curve<'a>
        requires { SoundCurve self.now.file.bytes.now (schedule_in s) }
        ensures part { result.points.now ≡ curve_part self.now.file.bytes.now (schedule_in s) }
        ensures count { result.count ≡ s.points }
    {
        self.file.curve(s)
    }
}
