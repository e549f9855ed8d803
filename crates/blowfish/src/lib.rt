//! Blowfish: sixteen rounds over tables that a key of 4 to 56 bytes makes out of the digits of pi.
//!
//! Public: `Blowfish`, with `new`, and the calls of `BlockCipher` and `KeyedCipher`.
#![tactic(auto)]

ghost use Rattle.std.specs.Prelude.{MatchBool};
ghost use Rattle.blowfish.specs.Blowfish.{enciphered, deciphered};
ghost use Rattle.blowfish.specs.Schedule.{initial, scheduled, Takes};
ghost use Rattle.blowfish.specs.Feistel;

mod pi;
mod schedule;
mod tables;

use cipher::block::Block;
use cipher::{BlockCipher, KeyedCipher};
use refusal::Refusal;
pub use tables::Blowfish;

/// How many bytes a key may have.
const SHORTEST_KEY: usize = 4;

const LONGEST_KEY: usize = 56;

impl BlockCipher for Blowfish {
    ghost enc = { enciphered };

    ghost dec = { deciphered };

    ghost inverse = { λ c. Feistel.inverse c };

    // in a chain each block waits for this one, and a call around it costs one part in ten
    #[inline(always)]
    fn encipher(&self, block: Block) -> Block {
        self.forward_one(block)
    }

    fn decipher(&self, block: Block) -> Block {
        let [block] = self.backward([block]);
        block
    }

    // two fours: eight at once want more registers than there are, and take over half as long again
    fn encipher_eight(&self, blocks: [Block; 8]) -> [Block; 8] {
        let [a, b, c, d, e, f, g, h] = blocks;
        let [p, q, r, s] = self.forward([a, b, c, d]);
        let [t, u, v, w] = self.forward([e, f, g, h]);
        [p, q, r, s, t, u, v, w]
    }

    fn decipher_eight(&self, blocks: [Block; 8]) -> [Block; 8] {
        let [a, b, c, d, e, f, g, h] = blocks;
        let [p, q, r, s] = self.backward([a, b, c, d]);
        let [t, u, v, w] = self.backward([e, f, g, h]);
        [p, q, r, s, t, u, v, w]
    }
}

/// Whether a key may have so many bytes.
fn lawful(length: usize) -> bool
    ensures { MatchBool result (Takes length) (Takes length → ⊥) }
{
    (SHORTEST_KEY..=LONGEST_KEY).contains(&length)
}

impl KeyedCipher for Blowfish {
    ghost takes = { λ _. Takes };

    ghost enc_under = { λ _ key. enciphered (scheduled initial key) };

    ghost dec_under = { λ _ key. deciphered (scheduled initial key) };

    fn load_key(&mut self, key: &[u8]) -> Result<(), Refusal> {
        if !lawful(key.len()) {
            return Err(Refusal::KeyLength);
        }
        *self = Blowfish::new();
        self.schedule(key);
        Ok(())
    }
}
