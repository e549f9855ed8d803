//! Eight blocks at once, where none waits for the one before.
ghost use Rattle.std.specs.Prelude.{◌≡◌};
ghost use Rattle.cipher.specs.Blocks.{xor};
ghost use Rattle.modes.specs.Runs.{before, pairwise};

use cipher::block::Block;
use std::array;

/// Eight blocks and eight others, bit by bit.
pub(crate) fn xored_eight(a: [Block; 8], b: [Block; 8]) -> [Block; 8]
    ensures { result ≡ pairwise xor a b }
{
    array::from_fn(|k| a[k] ^ b[k])
}

/// What eight blocks are chained to, where each is chained to the one before it.
pub(crate) fn shifted(chain: Block, blocks: [Block; 8]) -> [Block; 8]
    ensures { result ≡ before chain blocks }
{
    let [a, b, c, d, e, f, g, _] = blocks;
    [chain, a, b, c, d, e, f, g]
}
