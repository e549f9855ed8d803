//! One of two ciphers.
ghost use Rattle.std.specs.Prelude.{◌≡◌, length};
ghost use Rattle.refusal.specs.Refusals.{Answers};
ghost use Rattle.cipher.specs.Keys.{Stays};
ghost use Rattle.cipher.specs.Cases.{by_case, is_first, inverse_by_case};

use crate::block::Block;
use crate::{BlockCipher, KeyedCipher};
use refusal::Refusal;

// the library `either` has such an enum, with functions that ask for memory; no crate of a cipher has a heap below it
/// A cipher of either of two types, and each call is that cipher's.
#[derive(Clone, Copy, PartialEq, Eq, Debug)]
pub enum OneOf<X, Y> {
    First(X),
    Second(Y),
}

impl<X: BlockCipher, Y: BlockCipher> BlockCipher for OneOf<X, Y> {
    ghost enc = { by_case X.enc Y.enc };

    ghost dec = { by_case X.dec Y.dec };

    ghost inverse = { inverse_by_case _ _ _ _ X.inverse Y.inverse };

    fn encipher(&self, block: Block) -> Block {
        match self {
            OneOf::First(cipher) => cipher.encipher(block),
            OneOf::Second(cipher) => cipher.encipher(block),
        }
    }

    fn decipher(&self, block: Block) -> Block {
        match self {
            OneOf::First(cipher) => cipher.decipher(block),
            OneOf::Second(cipher) => cipher.decipher(block),
        }
    }

    fn encipher_eight(&self, blocks: [Block; 8]) -> [Block; 8] {
        match self {
            OneOf::First(cipher) => cipher.encipher_eight(blocks),
            OneOf::Second(cipher) => cipher.encipher_eight(blocks),
        }
    }

    fn decipher_eight(&self, blocks: [Block; 8]) -> [Block; 8] {
        match self {
            OneOf::First(cipher) => cipher.decipher_eight(blocks),
            OneOf::Second(cipher) => cipher.decipher_eight(blocks),
        }
    }
}

impl<X: KeyedCipher, Y: KeyedCipher> KeyedCipher for OneOf<X, Y> {
    ghost takes = { by_case X.takes Y.takes };

    ghost enc_under = { by_case X.enc_under Y.enc_under };

    ghost dec_under = { by_case X.dec_under Y.dec_under };

    /// Loads a key into the cipher that stands here, which stays of its type.
    fn load_key(&mut self, key: &[u8]) -> Result<(), Refusal>
        ensures loads { Answers result
            (λ _. by_case X.takes Y.takes self.old (length key.now)
            × (by_case X.enc Y.enc self.new ≡ by_case X.enc_under Y.enc_under self.old key.now)
            × (by_case X.dec Y.dec self.new ≡ by_case X.dec_under Y.dec_under self.old key.now))
            (λ n. (n ≡ 16) × (by_case X.takes Y.takes self.old (length key.now) → ⊥) × (self.new ≡ self.old)) }
        ensures stays { Stays (by_case X.takes Y.takes self.new) (by_case X.enc_under Y.enc_under self.new) (by_case X.dec_under Y.dec_under self.new)
            (by_case X.takes Y.takes self.old) (by_case X.enc_under Y.enc_under self.old) (by_case X.dec_under Y.dec_under self.old) }
        ensures case { is_first self.new ≡ is_first self.old }
    {
        match self {
            OneOf::First(cipher) => cipher.load_key(key),
            OneOf::Second(cipher) => cipher.load_key(key),
        }
    }
}
