// An opening block whose ids lie within it.

ghost use Rattle.std.specs.Prelude.{◌≡◌, true, false, ◌<◌, get_or, MatchOption};
ghost use Rattle.reading.specs.Block.{block_of, ids_misplaced, ids_out_of_order};
ghost use Rattle.reading.specs.Values.{BlockRead, Listed};

use crate::block::{Block, ID_BYTES, ids_misplaced};
use words::Word;

// The bytes of a block and what it says before its ids.
#[derive(Clone, Copy)]
pub struct ListedBlock<'a> {
    pub bytes: &'a [u8],
    pub block: Block,
    pub ghost listed: { Listed bytes.now block },
}

impl<'a> ListedBlock<'a> {
    // The block whose values are read from it, unless ground 3 refuses it.
    #[tactic(auto, using(crate::proofs::Facts::listed))]
    pub fn of(bytes: &'a [u8], block: Block) -> Option<ListedBlock<'a>>
        requires { BlockRead bytes.now block }
        ensures { MatchOption result (ids_misplaced bytes.now ≡ true)
            (λ listed. (ids_misplaced bytes.now ≡ false) × (listed.bytes.now ≡ bytes.now) × (listed.block ≡ block)) }
    {
        if ids_misplaced(bytes, block) {
            return None;
        }
        Some(ListedBlock { bytes, block })
    }

    // Id i.
    pub fn id(&self, i: usize) -> u64
        requires { i < self.now.block.ids }
        ensures { result ≡ get_or (block_of self.now.bytes.now).ids i 0 }
    {
        u32::number(self.bytes, self.block.ids_at + ID_BYTES * i)
    }

    // Ground 4.
    pub fn ids_out_of_order(&self) -> bool
        ensures { result ≡ ids_out_of_order (block_of self.now.bytes.now).ids }
    {
        let mut last = 0;
        for i in 0..self.block.ids {
            let id = self.id(i);
            if id <= last {
                return true;
            }
            last = id;
        }
        false
    }
}
