//! The two ways through a cipher.
ghost use Rattle.std.specs.Prelude.{◌≡◌, ℕ, List, Result as R};
ghost use Rattle.cipher.specs.declared.block.Block.{Block as B};
ghost use Rattle.chosen.specs.Kinds.{Chosen as C};
ghost use Rattle.chosen.specs.Meanings.{chosen_enc, chosen_dec};
ghost use Rattle.modes.specs.declared.mode.Mode.{Mode as M};
ghost use Rattle.modes.specs.Texts as texts;
ghost use Rattle.refusal.specs.declared.Refusal.{Refusal as E};
ghost use Rattle.session.specs.State.{Meaning};
ghost use Rattle.session.specs.Views.{meaning};

use chosen::Chosen;
use cipher::BlockCipher;
use cipher::block::Block;
use modes::Mode;
use refusal::Refusal;

/// A way through a cipher, for a block and for a text in its buffer.
pub(crate) trait Way {
    ghost turns: { Meaning → B → B };

    ghost relates: { M → (B → B) → B → List ℕ → R B E → List ℕ → Type 0 };

    /// The block turned this way.
    fn block(cipher: &Chosen, block: Block) -> Block
        ensures { result ≡ turns (meaning cipher.now) block };

    /// The text in `buffer` turned this way by a mode from a starting block; answers the block with which a following piece starts.
    fn text(cipher: &Chosen, mode: Mode, start: Block, buffer: &mut [u8]) -> Result<Block, Refusal>
        ensures { relates mode (chosen_enc cipher.now) start buffer.old result buffer.new };
}

/// From plain to cipher.
pub(crate) struct Enciphering;

impl Way for Enciphering {
    ghost turns = { λ x. x.enc };

    ghost relates = { texts.Enciphers };

    fn block(cipher: &Chosen, block: Block) -> Block {
        cipher.encipher(block)
    }

    fn text(
        cipher: &Chosen,
        mode: Mode,
        start: Block,
        buffer: &mut [u8],
    ) -> Result<Block, Refusal> {
        modes::encipher(cipher, mode, start, buffer)
    }
}

/// From cipher to plain.
pub(crate) struct Deciphering;

impl Way for Deciphering {
    ghost turns = { λ x. x.dec };

    ghost relates = { texts.Deciphers };

    fn block(cipher: &Chosen, block: Block) -> Block {
        cipher.decipher(block)
    }

    fn text(
        cipher: &Chosen,
        mode: Mode,
        start: Block,
        buffer: &mut [u8],
    ) -> Result<Block, Refusal> {
        modes::decipher(cipher, mode, start, buffer)
    }
}
