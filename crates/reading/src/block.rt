// The opening block, of both formats: its values, and grounds 1, 2, 23 and 3.

ghost use Rattle.std.specs.Prelude.{◌≡◌, ◌≤◌, length};
ghost use Rattle.words.specs.Words.{word32};
ghost use Rattle.reading.specs.Block.{
  block_header_bytes,
  block_sizes,
  year_named,
  block_words,
  not_a_block,
  terms_outside,
  year_outside,
  year_unknown,
  ids_misplaced,
};
ghost use Rattle.reading.specs.Values.{sizes_in, terms_in, block_in, BlockRead};

use crate::spans::{Sizes, Span, not_of_formats};
use words::{Word, size};

// Of the two formats: the one that names no year, and the one that does. The word of a format is only compared.
const YEARLESS: u64 = 1;

const DATED: u64 = 2;

const YEARLESS_HEADER_BYTES: usize = 20;

const DATED_HEADER_BYTES: usize = 24;

pub const MOST_BLOCK_BYTES: usize = 4096;

const MOST_NET_CONE: u64 = 200000;

const COMMON_YEAR: u64 = 365;

const LEAP_YEAR: u64 = 366;

pub const MOST_IDS: usize = 512;

pub(crate) const ID_BYTES: usize = 4;

// The delivery year that started in 2016, which has divisors of its own.
pub const TRANSITION_YEAR: u64 = 2016;

// The delivery years after those of transition.
const FIRST_YEAR: u64 = 2018;

const LAST_YEAR: u64 = 2023;

// The terms of a delivery year: Net CONE in cents per MW-day, days, and the calendar year in which it starts,
// 0 where none is named.
#[derive(Clone, Copy)]
pub struct Terms {
    pub net_cone: u64,
    pub days: u64,
    pub year: u64,
}

// What a block says before its ids: of these the number and the byte offset.
#[derive(Clone, Copy)]
pub struct Block {
    pub format: u64,
    pub terms: Terms,
    pub ids: usize,
    pub ids_at: usize,
}

// Bytes of a block of a format before its ids may begin.
#[tactic(auto, unfolding(crate::specs::Block::block_header_bytes))]
fn block_header_bytes(format: u64) -> usize
    ensures { result ≡ block_header_bytes format }
{
    if format == YEARLESS {
        return YEARLESS_HEADER_BYTES;
    }
    DATED_HEADER_BYTES
}

// The year that a block names, 0 if its format has no word for it.
#[tactic(auto, using(crate::proofs::Blocks::block_header_least), unfolding(crate::specs::Block::block_header_bytes, crate::specs::Block::year_named, words::specs::Words::word32))]
fn year_named(block: &[u8]) -> u64
    requires { block_header_bytes (word32 block.now 0) ≤ length block.now }
    ensures { result ≡ year_named block.now }
{
    if u32::number(block, 0) == YEARLESS {
        return 0;
    }
    u32::number(block, 20)
}

// The values of a block that ground 1 does not refuse.
#[tactic(auto, using(crate::proofs::Blocks::block_header_least), unfolding(crate::specs::Block::block_words))]
pub fn block_of(block: &[u8]) -> Block
    requires { block_header_bytes (block_words block.now).format ≤ length block.now }
    ensures { block_in result ≡ block_words block.now }
{
    let terms = Terms {
        net_cone: u32::number(block, 4),
        days: u32::number(block, 8),
        year: year_named(block),
    };
    Block {
        format: u32::number(block, 0),
        terms,
        ids: size(block, 12),
        ids_at: size(block, 16),
    }
}

// The least and the most bytes of a block of a format.
#[tactic(auto, unfolding(crate::specs::Block::block_sizes, crate::specs::Values::sizes_in))]
fn block_sizes(format: u64) -> Sizes
    ensures { sizes_in result ≡ block_sizes format }
{
    Sizes {
        least: block_header_bytes(format),
        most: MOST_BLOCK_BYTES,
    }
}

// Ground 1.
#[tactic(auto, unfolding(crate::specs::Block::not_a_block))]
pub fn not_a_block(block: &[u8]) -> bool
    ensures { result ≡ not_a_block block.now }
{
    not_of_formats(block, block_sizes(YEARLESS), block_sizes(DATED))
}

// Ground 2.
#[tactic(auto, unfolding(crate::specs::Block::terms_outside, crate::specs::Values::terms_in, words::specs::Grounds::outside))]
pub fn terms_outside(terms: Terms) -> bool
    ensures { result ≡ terms_outside (terms_in terms) }
{
    terms.net_cone < 1
        || MOST_NET_CONE < terms.net_cone
        || terms.days != COMMON_YEAR && terms.days != LEAP_YEAR
}

// Whether a year is none that a block may name: any but 2016, of 365 days, and 2018 to 2023.
#[tactic(auto, unfolding(crate::specs::Block::year_outside, crate::specs::Values::terms_in, words::specs::Grounds::outside))]
pub fn year_outside(terms: Terms) -> bool
    ensures { result ≡ year_outside (terms_in terms) }
{
    if terms.year == TRANSITION_YEAR {
        return terms.days != COMMON_YEAR;
    }
    terms.year < FIRST_YEAR || LAST_YEAR < terms.year
}

// Ground 23.
#[tactic(auto, unfolding(crate::specs::Block::year_unknown, crate::specs::Values::block_in))]
pub fn year_unknown(b: Block) -> bool
    ensures { result ≡ year_unknown (block_in b) }
{
    b.format != YEARLESS && year_outside(b.terms)
}

// Ground 3.
#[tactic(auto, unfolding(crate::specs::Block::ids_misplaced, crate::specs::Values::block_in, words::specs::Grounds::outside))]
pub fn ids_misplaced(block: &[u8], b: Block) -> bool
    requires { BlockRead block.now b }
    ensures { result ≡ ids_misplaced block.now }
{
    if b.ids < 1 || MOST_IDS < b.ids {
        return true;
    }
    let ids = Span {
        at: b.ids_at,
        bytes: ID_BYTES * b.ids,
    };
    ids.leaves(block_header_bytes(b.format), block.len())
}
