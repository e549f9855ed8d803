//! Modes and tag: whole texts by any block cipher, in place in one buffer.
//!
//! Public: `Mode`, read off its name by `parse`, with `name` and `code`; `encipher`, `decipher`, `tag`.
#![tactic(auto)]

ghost use Rattle.std.specs.Prelude.{◌≡◌, ◌%◌, length, map};
ghost use Rattle.refusal.specs.Refusals.{Answers};
ghost use Rattle.modes.specs.declared.mode.Mode.TheVariants.{Ofb};
ghost use Rattle.cipher.specs.Blocks.{xor};
ghost use Rattle.modes.specs.Formulas.{forward as forward_step, backward as backward_step};
ghost use Rattle.modes.specs.Runs.{Ran, pairwise};
ghost use Rattle.modes.specs.Texts.{WholeLength, Enciphers, Deciphers, Back, InPieces};

mod buffer;
mod cmac;
mod eights;
mod mode;
mod run;

use cipher::BlockCipher;
use cipher::block::Block;
pub use cmac::tag;
use eights::xored_eight;
pub use mode::Mode;
use mode::Step;
use refusal::Refusal;
use run::{chained, side_by_side};

/// The longest text, in bytes.
const LONGEST: usize = 65536;

/// A text is whole blocks, and no longer than the longest: 17.
fn whole(length: usize) -> Result<(), Refusal>
    ensures { Answers result (λ _. WholeLength length) (λ n. (n ≡ 17) × (WholeLength length → ⊥)) }
{
    if length % 8 == 0 && length <= LONGEST {
        Ok(())
    } else {
        Err(Refusal::TextLength)
    }
}

/// Output feedback, which is the same both ways: each block and the cipher's next output, bit by bit.
fn fed_back<C: BlockCipher>(cipher: &C, start: Block, buffer: &mut [u8]) -> Block
    requires { length buffer.old % 8 ≡ 0 }
    ensures { Ran (forward_step Ofb (C.BlockCipher.enc cipher.now)) start buffer.old result buffer.new }
{
    chained(start, buffer, |chain, block| {
        let next = cipher.encipher(chain);
        Step {
            out: block ^ next,
            chain: next,
        }
    })
}

/// Each block of a text of whole blocks enciphered in place; answers what a following block is chained to.
fn forward<C: BlockCipher>(cipher: &C, mode: Mode, start: Block, buffer: &mut [u8]) -> Block
    requires { length buffer.old % 8 ≡ 0 }
    ensures { Ran (forward_step mode (C.BlockCipher.enc cipher.now)) start buffer.old result buffer.new }
{
    match mode {
        Mode::Ecb => {
            side_by_side(
                start,
                buffer,
                |_before: [Block; 8], blocks: [Block; 8]| -> [Block; 8]
                    ensures { result ≡ map (C.BlockCipher.enc cipher.entry.now) blocks }
                { cipher.encipher_eight(blocks) },
                |_, block| cipher.encipher(block),
            );
            start
        }
        Mode::Cbc => chained(start, buffer, |chain, block| {
            let out = cipher.encipher(block ^ chain);
            Step { out, chain: out }
        }),
        Mode::Cfb => chained(start, buffer, |chain, block| {
            let out = block ^ cipher.encipher(chain);
            Step { out, chain: out }
        }),
        Mode::Ofb => fed_back(cipher, start, buffer),
    }
}

/// Each block of a text of whole blocks deciphered in place; answers what a following block is chained to.
fn backward<C: BlockCipher>(cipher: &C, mode: Mode, start: Block, buffer: &mut [u8]) -> Block
    requires { length buffer.old % 8 ≡ 0 }
    ensures { Ran (backward_step mode (C.BlockCipher.enc cipher.now) (C.BlockCipher.dec cipher.now)) start buffer.old result buffer.new }
{
    match mode {
        Mode::Ecb => {
            side_by_side(
                start,
                buffer,
                |_before: [Block; 8], blocks: [Block; 8]| -> [Block; 8]
                    ensures { result ≡ map (C.BlockCipher.dec cipher.entry.now) blocks }
                { cipher.decipher_eight(blocks) },
                |_, block| cipher.decipher(block),
            );
            start
        }
        Mode::Cbc => side_by_side(
            start,
            buffer,
            |before: [Block; 8], blocks: [Block; 8]| -> [Block; 8]
                ensures { result ≡ pairwise xor (map (C.BlockCipher.dec cipher.entry.now) blocks) before }
            { xored_eight(cipher.decipher_eight(blocks), before) },
            |before, block| cipher.decipher(block) ^ before,
        ),
        Mode::Cfb => side_by_side(
            start,
            buffer,
            |before: [Block; 8], blocks: [Block; 8]| -> [Block; 8]
                ensures { result ≡ pairwise xor blocks (map (C.BlockCipher.enc cipher.entry.now) before) }
            { xored_eight(blocks, cipher.encipher_eight(before)) },
            |before, block| block ^ cipher.encipher(before),
        ),
        Mode::Ofb => fed_back(cipher, start, buffer),
    }
}

// Two calls: each has clauses of its own, and one with a way would promise both by cases. The four things they are given
// stay apart: a struct around them would be made and taken apart in the same call.

/// Enciphers the text in `buffer` from a starting block, and answers the block with which a following piece starts.
pub fn encipher<C: BlockCipher>(
    cipher: &C,
    mode: Mode,
    start: Block,
    buffer: &mut [u8],
) -> Result<Block, Refusal>
    ensures does { Enciphers mode (C.BlockCipher.enc cipher.now) start buffer.old result buffer.new }
    ensures back { Back mode (C.BlockCipher.enc cipher.now) start buffer.old result buffer.new }
    ensures pieces { InPieces mode (C.BlockCipher.enc cipher.now) start buffer.old result buffer.new }
{
    whole(buffer.len())?;
    Ok(forward(cipher, mode, start, buffer))
}

/// Deciphers what is in `buffer`: leaves the one text that enciphers to it, and answers the block with which a following piece starts.
pub fn decipher<C: BlockCipher>(
    cipher: &C,
    mode: Mode,
    start: Block,
    buffer: &mut [u8],
) -> Result<Block, Refusal>
    ensures { Deciphers mode (C.BlockCipher.enc cipher.now) start buffer.old result buffer.new }
{
    whole(buffer.len())?;
    Ok(backward(cipher, mode, start, buffer))
}
