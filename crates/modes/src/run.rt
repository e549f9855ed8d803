//! A whole text, block after block, by any step.
ghost use Rattle.std.specs.Prelude.{◌≡◌, ◌%◌, length, List};
ghost use Rattle.cipher.specs.declared.block.Block.{Block as B};
ghost use Rattle.modes.specs.declared.mode.Step.{Step as S};
ghost use Rattle.modes.specs.Runs.{Ran, Gives, GivesEach, by_pairs};

// That a text is whole blocks stays a `requires`: a type around what is lent would be made and opened again in each function
// that passes it on.

use crate::buffer::{read_block, read_eight, write_block, write_eight};
use crate::eights::shifted;
use crate::mode::Step;
use cipher::block::Block;

/// Each block of the text in place, by a step that waits for the one before; answers what a following block is chained to.
pub(crate) fn chained<F: Fn(Block, Block) -> Step>(
    start: Block,
    buffer: &mut [u8],
    step: F,
) -> Block
    requires calls { F.IsAlwaysCallable step }
    requires whole { length buffer.old % 8 ≡ 0 }
    ensures { (f : B → B → S) → Gives (F.post step) f → Ran f start buffer.old result buffer.new }
{
    let mut chain = start;
    // by place: of a text that `chunks_exact_mut` lends a proof keeps only the length
    for at in (0..buffer.len()).step_by(8) {
        let done = step(chain, read_block(buffer, at));
        write_block(buffer, at, done.out);
        chain = done.chain;
    }
    chain
}

/// Eight blocks at a time, each with the one before it, in a text of whole eights; answers the last block as it was.
fn by_eights<M: Fn([Block; 8], [Block; 8]) -> [Block; 8]>(
    start: Block,
    buffer: &mut [u8],
    many: M,
) -> Block
    requires calls { M.IsAlwaysCallable many }
    requires whole { length buffer.old % 64 ≡ 0 }
    ensures { (f : B → B → B) → GivesEach (M.post many) f → Ran (by_pairs f) start buffer.old result buffer.new }
{
    let mut chain = start;
    // by place, as above; a loop of its own, since eight are read before one is written
    for at in (0..buffer.len()).step_by(64) {
        let blocks = read_eight(buffer, at);
        write_eight(buffer, at, many(shifted(chain, blocks), blocks));
        chain = blocks[7];
    }
    chain
}

/// Each block of the text in place, where none waits for what the one before becomes: by the block before it as it was,
/// and by itself. Eights are done by `many`, and what is left block by block by `one`. Answers the last block as it was.
pub(crate) fn side_by_side<
    M: Fn([Block; 8], [Block; 8]) -> [Block; 8],
    F: Fn(Block, Block) -> Block,
>(start: Block, buffer: &mut [u8], many: M, one: F) -> Block
    requires many { M.IsAlwaysCallable many }
    requires one { F.IsAlwaysCallable one }
    requires whole { length buffer.old % 8 ≡ 0 }
    ensures { (f : B → B → B) → GivesEach (M.post many) f → Gives (F.post one) f → Ran (by_pairs f) start buffer.old result buffer.new }
{
    let (front, rest) = buffer.split_at_mut(buffer.len() / 64 * 64);
    let chain = by_eights(start, front, many);
    chained(
        chain,
        rest,
        |before, block| Step {
            out: one(before, block),
            chain: block,
        },
    )
}
