//! Three ciphers as one.
ghost use Rattle.cipher.specs.Inverses;

use crate::BlockCipher;
use crate::block::Block;

/// E is the first cipher's E, then the second's D, then the third's E.
#[derive(Clone, Copy, PartialEq, Eq, Debug)]
pub struct Triple<X, Y, Z> {
    pub first: X,
    pub second: Y,
    pub third: Z,
}

impl<X: BlockCipher, Y: BlockCipher, Z: BlockCipher> BlockCipher for Triple<X, Y, Z> {
    ghost enc = { λ t b. Z.BlockCipher.enc t.third (Y.BlockCipher.dec t.second (X.BlockCipher.enc t.first b)) };

    ghost dec = { λ t b. X.BlockCipher.dec t.first (Y.BlockCipher.enc t.second (Z.BlockCipher.dec t.third b)) };

    ghost inverse = { λ t. Inverses.inverse_triple _ _ _ _ _ _ (X.BlockCipher.inverse t.first) (Y.BlockCipher.inverse t.second) (Z.BlockCipher.inverse t.third) };

    fn encipher(&self, block: Block) -> Block {
        self.third
            .encipher(self.second.decipher(self.first.encipher(block)))
    }

    fn decipher(&self, block: Block) -> Block {
        self.first
            .decipher(self.second.encipher(self.third.decipher(block)))
    }

    #[tactic(auto, using(crate::proofs::Eights::in_turn))]
    fn encipher_eight(&self, blocks: [Block; 8]) -> [Block; 8] {
        self.third.encipher_eight(
            self.second
                .decipher_eight(self.first.encipher_eight(blocks)),
        )
    }

    #[tactic(auto, using(crate::proofs::Eights::in_turn))]
    fn decipher_eight(&self, blocks: [Block; 8]) -> [Block; 8] {
        self.first.decipher_eight(
            self.second
                .encipher_eight(self.third.decipher_eight(blocks)),
        )
    }
}
