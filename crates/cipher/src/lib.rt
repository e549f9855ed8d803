//! Block ciphers: what a block is, what a cipher means, and how ciphers are joined.
//!
//! `BlockCipher` has two functions on blocks, E and D, that undo each other; `KeyedCipher` also loads keys;
//! `Triple` joins three ciphers to one, `OneOf` is a cipher of either of two types. Public: `block::Block`, which
//! is made of eight bytes and into them and xored with `^`, `BlockCipher`, `KeyedCipher`, `OneOf`, `Triple`, `encipher_under`.
#![tactic(auto)]

ghost use Rattle.std.specs.Prelude.{◌≡◌, ℕ, List, length, map};
ghost use Rattle.refusal.specs.Refusals.{Answers};
ghost use Rattle.cipher.specs.declared.block.Block.{Block as B};
ghost use Rattle.cipher.specs.Blocks.{Inverse};
ghost use Rattle.cipher.specs.Keys.{Stays};

pub mod block;
mod one_of;
mod triple;

use block::Block;
pub use one_of::OneOf;
use refusal::Refusal;
pub use triple::Triple;

/// A cipher: two functions on blocks, E and D, that undo each other at every block.
pub trait BlockCipher {
    ghost enc: { Self → B → B };

    ghost dec: { Self → B → B };

    /// E of the block.
    fn encipher(&self, block: Block) -> Block
        ensures { result ≡ enc self.now block };

    /// D of the block.
    fn decipher(&self, block: Block) -> Block
        ensures { result ≡ dec self.now block };

    /// E of each of eight blocks, for a cipher that is faster so.
    fn encipher_eight(&self, blocks: [Block; 8]) -> [Block; 8]
        ensures { result ≡ map (enc self.now) blocks }
    {
        blocks.map(|block| self.encipher(block))
    }

    /// D of each of eight blocks.
    fn decipher_eight(&self, blocks: [Block; 8]) -> [Block; 8]
        ensures { result ≡ map (dec self.now) blocks }
    {
        blocks.map(|block| self.decipher(block))
    }

    ghost inverse: { (c : Self) → Inverse (enc c) (dec c) };
}

/// A cipher that also loads keys. Its meaning is E and D under a key, which may differ from value to value of the type.
pub trait KeyedCipher: BlockCipher {
    ghost takes: { Self → ℕ → Type 0 };

    ghost enc_under: { Self → List ℕ → B → B };

    ghost dec_under: { Self → List ℕ → B → B };

    /// Loads a key: accepted exactly at a lawful length, and then E and D are those under that key; else 16, and the cipher is as it was.
    /// What keys mean to it stays.
    fn load_key(&mut self, key: &[u8]) -> Result<(), Refusal>
        ensures loads { Answers result
            (λ _. takes self.old (length key.now)
            × (Self.BlockCipher.enc self.new ≡ enc_under self.old key.now)
            × (Self.BlockCipher.dec self.new ≡ dec_under self.old key.now))
            (λ n. (n ≡ 16) × (takes self.old (length key.now) → ⊥) × (self.new ≡ self.old)) }
        ensures stays { Stays (takes self.new) (enc_under self.new) (dec_under self.new) (takes self.old) (enc_under self.old) (dec_under self.old) };
}

/// One block under a key, by any keyed cipher, which then stands under that key.
pub fn encipher_under<K: KeyedCipher>(
    cipher: &mut K,
    key: &[u8],
    block: Block,
) -> Result<Block, Refusal>
    ensures answers { Answers result
        (λ b. K.KeyedCipher.takes cipher.old (length key.now)
        × (b ≡ K.KeyedCipher.enc_under cipher.old key.now block)
        × (K.BlockCipher.enc cipher.new ≡ K.KeyedCipher.enc_under cipher.old key.now)
        × (K.BlockCipher.dec cipher.new ≡ K.KeyedCipher.dec_under cipher.old key.now))
        (λ n. (n ≡ 16) × (K.KeyedCipher.takes cipher.old (length key.now) → ⊥) × (cipher.new ≡ cipher.old)) }
    ensures stays { Stays (K.KeyedCipher.takes cipher.new) (K.KeyedCipher.enc_under cipher.new) (K.KeyedCipher.dec_under cipher.new)
        (K.KeyedCipher.takes cipher.old) (K.KeyedCipher.enc_under cipher.old) (K.KeyedCipher.dec_under cipher.old) }
{
    cipher.load_key(key)?;
    Ok(cipher.encipher(block))
}
