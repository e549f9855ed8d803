//! XTEA: 32 cycles under a key of sixteen bytes, one block or eight at a time.
//!
//! Public: `Xtea`, with `new`, and the calls of `BlockCipher` and `KeyedCipher`.
#![tactic(auto)]

ghost use Rattle.std.specs.Prelude.{◌≡◌, ℕ, ◌<◌, replicate};
ghost use Rattle.xtea.specs.Lanes.{in_lane};
ghost use Rattle.xtea.specs.Xtea.{left_word_of, right_word_of, cycled, uncycled, sum_at as begins_at, enciphered, deciphered, key_words};
ghost use Rattle.xtea.specs.Cycles;

mod halves;
mod words;

use cipher::block::Block;
use cipher::{BlockCipher, KeyedCipher};
use halves::Halves;
use refusal::Refusal;
use words::{Word, mix};

/// What the sum grows by in each cycle: the golden section, as a word.
const DELTA: u32 = 0x9E3779B9;

const CYCLES: u32 = 32;

/// The sum at which a cycle begins.
#[tactic(auto, using(crate::specs::Cycles::sum_at_is))]
fn sum_at(cycle: u32) -> u32
    ensures { result ≡ begins_at cycle }
{
    DELTA.wrapping_mul(cycle)
}

/// XTEA under the key that was loaded last; under sixteen zero bytes before any load.
#[derive(Clone, Copy, PartialEq, Eq)]
pub struct Xtea {
    key: [u32; 4],
}

impl Xtea {
    /// XTEA under the zero key.
    pub fn new() -> Xtea
        ensures { result.key ≡ key_words (replicate 16 0) }
    {
        Xtea { key: [0; 4] }
    }

    /// The sum with the key's word that the sum picks for the left half.
    fn left_word(&self, sum: u32) -> u32
        ensures { result ≡ left_word_of self.now.key sum }
    {
        sum.wrapping_add(self.key[(sum % 4) as usize])
    }

    /// The next sum with the key's word that it picks for the right half.
    fn right_word(&self, sum: u32) -> u32
        ensures { result ≡ right_word_of self.now.key sum }
    {
        let next = sum.wrapping_add(DELTA);
        next.wrapping_add(self.key[((next >> 11) % 4) as usize])
    }

    /// One cycle, which begins at `sum`, of the block in each lane.
    #[tactic(auto, unfolding(crate::specs::Xtea::cycled))]
    fn cycle<W: Word>(&self, sum: u32, halves: Halves<W>) -> Halves<W>
        ensures { (k : ℕ) → k < W.lanes
            → in_lane W.lane result k ≡ cycled self.now.key sum (in_lane W.lane halves k) }
    {
        let left = halves
            .left
            .plus(mix(halves.right).xor(W::splat(self.left_word(sum))));
        let right = halves
            .right
            .plus(mix(left).xor(W::splat(self.right_word(sum))));
        Halves { left, right }
    }

    /// The cycle that began at `sum`, undone.
    #[tactic(auto, unfolding(crate::specs::Xtea::uncycled))]
    fn uncycle<W: Word>(&self, sum: u32, halves: Halves<W>) -> Halves<W>
        ensures { (k : ℕ) → k < W.lanes
            → in_lane W.lane result k ≡ uncycled self.now.key sum (in_lane W.lane halves k) }
    {
        let right = halves
            .right
            .minus(mix(halves.left).xor(W::splat(self.right_word(sum))));
        let left = halves
            .left
            .minus(mix(right).xor(W::splat(self.left_word(sum))));
        Halves { left, right }
    }

    /// All cycles.
    #[tactic(auto, unfolding(crate::specs::Xtea::cycles))]
    fn cycles<W: Word>(&self, mut halves: Halves<W>) -> Halves<W>
        ensures { (k : ℕ) → k < W.lanes
            → in_lane W.lane result k ≡ enciphered self.now.key (in_lane W.lane halves k) }
    {
        for i in 0..CYCLES {
            halves = self.cycle(sum_at(i), halves);
        }
        halves
    }

    /// All cycles undone, the last of them first.
    #[tactic(auto, unfolding(crate::specs::Xtea::uncycles))]
    fn uncycles<W: Word>(&self, mut halves: Halves<W>) -> Halves<W>
        ensures { (k : ℕ) → k < W.lanes
            → in_lane W.lane result k ≡ deciphered self.now.key (in_lane W.lane halves k) }
    {
        for i in (0..CYCLES).rev() {
            halves = self.uncycle(sum_at(i), halves);
        }
        halves
    }
}

impl BlockCipher for Xtea {
    ghost enc = { λ x. enciphered x.key };

    ghost dec = { λ x. deciphered x.key };

    ghost inverse = { λ c. Cycles.inverse c.key };

    fn encipher(&self, block: Block) -> Block {
        self.cycles(Halves::from(block)).into()
    }

    fn decipher(&self, block: Block) -> Block {
        self.uncycles(Halves::from(block)).into()
    }

    fn encipher_eight(&self, blocks: [Block; 8]) -> [Block; 8] {
        self.cycles(Halves::from(blocks)).into()
    }

    fn decipher_eight(&self, blocks: [Block; 8]) -> [Block; 8] {
        self.uncycles(Halves::from(blocks)).into()
    }
}

impl KeyedCipher for Xtea {
    ghost takes = { λ _ n. n ≡ 16 };

    ghost enc_under = { λ _ key. enciphered (key_words key) };

    ghost dec_under = { λ _ key. deciphered (key_words key) };

    fn load_key(&mut self, key: &[u8]) -> Result<(), Refusal> {
        // four words, and no byte after them
        let (&[a, b, c, d], []) = key.as_chunks::<4>() else {
            return Err(Refusal::KeyLength);
        };
        self.key = [a, b, c, d].map(u32::from_be_bytes);
        Ok(())
    }
}
