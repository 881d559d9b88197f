// Little-endian words in byte buffers, below the three layers.
// A word at a byte offset is what this crate gives, so that an offset stands beside each buffer.

#![tactic(auto)]

pub mod refusal;

ghost use Rattle.std.specs.Prelude.{◌≡◌, ℕ, ◌∷◌, [], ◌+◌, ◌*◌, ◌≤◌, ◌<◌, ◌^◌, length};
ghost use Rattle.std.specs.Int.Signed.{mag};
ghost use Rattle.words.specs.Words.{
  bytes_of,
  number_at,
  signed as signed_of,
  bytes_of_words,
  placed_at,
  written,
  written_at,
};

// A word of a buffer: of a block, a file or an event u32, of a ledger or a result u64.
pub trait Word {
    ghost BYTES: { ℕ };

    const BYTES: usize;

    // The number at a byte offset. Its bytes are read in one sum, which becomes one load.
    fn number(b: &[u8], at: usize) -> u64
        requires { at + BYTES ≤ length b.now }
        ensures value { result ≡ number_at BYTES b.now at }
        ensures upper_bound { result < 256 ^ BYTES };
}

impl Word for u32 {
    ghost BYTES = { 4 };

    const BYTES: usize = 4;

    fn number(b: &[u8], at: usize) -> u64 {
        u64::from(u32::from_le_bytes([b[at], b[at + 1], b[at + 2], b[at + 3]]))
    }
}

impl Word for u64 {
    ghost BYTES = { 8 };

    const BYTES: usize = 8;

    fn number(b: &[u8], at: usize) -> u64 {
        u32::number(b, at) + 0x1_0000_0000 * u32::number(b, at + 4)
    }
}

// A 32-bit word that says how many bytes or entries there are, or where they begin. It fits, so that the kit's TryFrom
// would test it for nothing.
pub fn size(b: &[u8], at: usize) -> usize
    requires { at + 4 ≤ length b.now }
    ensures value { result ≡ number_at 4 b.now at }
    ensures upper_bound { result < 2 ^ 32 }
{
    u32::number(b, at) as usize
}

// A 32-bit word as a signed number. The low 32 bits, which `as` keeps, are the word.
pub fn signed(w: u64) -> i64
    requires { w < 2 ^ 32 }
    ensures value { result ≡ signed_of w }
    ensures result_bound { mag result < 2 ^ 31 }
{
    i64::from((w as u32).cast_signed())
}

// Writes the low bytes of a number, as many as a word has, at a byte offset: the bytes of both widths in one loop,
// where to_le_bytes has eight for either. A remainder of 256 is a byte, so that `as` keeps it.
pub fn put<W: Word>(b: &mut [u8], at: usize, v: u64)
    requires { at + W.BYTES ≤ length b.old }
    ensures { b.new ≡ placed_at at (bytes_of W.BYTES v) b.old }
{
    let mut rest = v;
    for i in 0..W::BYTES {
        b[at + i] = (rest % 256) as u8;
        rest = rest / 256;
    }
}

// Writes numbers as words, one after the other, to the front of a buffer.
pub fn store<W: Word>(s: &[u64], b: &mut [u8])
    requires { W.BYTES * length s.now ≤ length b.old }
    ensures { b.new ≡ placed_at 0 (bytes_of_words W.BYTES s.now) b.old }
{
    for (i, v) in s.iter().enumerate() {
        put::<W>(b, W::BYTES * i, *v);
    }
}
