//! Blocks by their halves: one block as two words, eight as two vectors.
ghost use Rattle.std.specs.Prelude.{◌≡◌, ℕ, ◌<◌, get_or};
ghost use Rattle.cipher.specs.declared.block.Block.{Block as B};
ghost use Rattle.xtea.specs.Lanes.{in_lane};

use crate::words::Word;
use cipher::block::Block;
use std::array::from_fn;
use std::simd::prelude::*;

/// The left halves of blocks in lanes, and their right halves.
#[derive(Clone, Copy)]
pub(crate) struct Halves<W> {
    pub(crate) left: W,
    pub(crate) right: W,
}

impl From<Block> for Halves<u32> {
    ghost from_gives = { λ block halves. in_lane ⟦<u32 as Word>⟧.lane halves 0 ≡ block };

    fn from(block: Block) -> Halves<u32> {
        let Block { left, right } = block;
        Halves { left, right }
    }
}

impl From<Halves<u32>> for Block {
    ghost from_gives = { λ halves block. block ≡ in_lane ⟦<u32 as Word>⟧.lane halves 0 };

    fn from(halves: Halves<u32>) -> Block {
        let Halves { left, right } = halves;
        Block { left, right }
    }
}

impl From<[Block; 8]> for Halves<u32x8> {
    ghost from_gives = { λ blocks halves. (k : ℕ) (d : B) → k < 8 → in_lane ⟦<u32x8 as Word>⟧.lane halves k ≡ get_or blocks k d };

    fn from(blocks: [Block; 8]) -> Halves<u32x8> {
        Halves {
            left: u32x8::from_array(from_fn(|lane| blocks[lane].left)),
            right: u32x8::from_array(from_fn(|lane| blocks[lane].right)),
        }
    }
}

impl From<Halves<u32x8>> for [Block; 8] {
    ghost from_gives = { λ halves blocks. (k : ℕ) (d : B) → k < 8 → get_or blocks k d ≡ in_lane ⟦<u32x8 as Word>⟧.lane halves k };

    fn from(halves: Halves<u32x8>) -> [Block; 8] {
        let lefts = halves.left.to_array();
        let rights = halves.right.to_array();
        from_fn(|lane| Block {
            left: lefts[lane],
            right: rights[lane],
        })
    }
}
