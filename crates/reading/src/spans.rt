// Stretches of a buffer, and the length and format of one.

ghost use Rattle.std.specs.Prelude.{◌≡◌, ◌≤◌, not, MatchOption};
ghost use Rattle.words.specs.Grounds.{lies_from, overlap};
ghost use Rattle.reading.specs.Formats.{
  format_bytes,
  sizes_outside,
  not_of_formats,
  FormatNone,
  FormatRead,
};
ghost use Rattle.reading.specs.Values.{sizes_in};

use words::Word;

// Bytes of the word that says the format.
const FORMAT_BYTES: usize = 4;

// So many bytes from a byte offset on.
#[derive(Clone, Copy)]
pub struct Span {
    pub at: usize,
    pub bytes: usize,
}

impl Span {
    // Whether it does not lie wholly from one byte to another.
    #[tactic(auto, unfolding(words::specs::Grounds::lies_from))]
    pub fn leaves(self, from: usize, end: usize) -> bool
        ensures { result ≡ not (lies_from from end self.at self.bytes) }
    {
        self.at < from || end < self.at || end - self.at < self.bytes
    }

    // Whether it shares a byte with another, neither of them empty.
    #[tactic(auto, unfolding(words::specs::Grounds::overlap))]
    pub fn overlaps(self, other: Span) -> bool
        ensures { result ≡ overlap self.at self.bytes other.at other.bytes }
    {
        self.at.saturating_sub(other.at) < other.bytes
            && other.at.saturating_sub(self.at) < self.bytes
    }
}

// The least and the most bytes of a format.
#[derive(Clone, Copy)]
pub struct Sizes {
    pub least: usize,
    pub most: usize,
}

impl Sizes {
    // Whether a length is none that the format has.
    #[tactic(auto, unfolding(words::specs::Grounds::outside, crate::specs::Formats::sizes_outside, crate::specs::Values::sizes_in))]
    pub fn outside(self, n: usize) -> bool
        ensures { result ≡ sizes_outside (sizes_in self) n }
    {
        n < self.least || self.most < n
    }
}

// The format that a buffer begins with, if it is 1 or 2.
#[tactic(auto, unfolding(words::specs::Words::word32))]
pub fn format_word(b: &[u8]) -> Option<u64>
    ensures { MatchOption result (FormatNone b.now) (FormatRead b.now) }
{
    if b.len() < FORMAT_BYTES {
        return None;
    }
    match u32::number(b, 0) {
        format @ 1..=2 => Some(format),
        _ => None,
    }
}

// Whether a buffer is of neither format, or has a length that its format does not.
#[tactic(auto, unfolding(crate::specs::Formats::not_of_formats))]
pub fn not_of_formats(b: &[u8], one: Sizes, two: Sizes) -> bool
    requires format_bytes_le_least { format_bytes ≤ one.least }
    requires format_bytes_le_least_2 { format_bytes ≤ two.least }
    ensures { result ≡ not_of_formats (sizes_in one) (sizes_in two) b.now }
{
    match format_word(b) {
        Some(1) => one.outside(b.len()),
        Some(_) => two.outside(b.len()),
        None => true,
    }
}
