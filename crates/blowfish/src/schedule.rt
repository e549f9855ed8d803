//! How a key makes the tables.
ghost use Rattle.std.specs.Prelude.{◌≡◌, ◌<◌, length};
ghost use Rattle.blowfish.specs.Schedule.{key_word_of, mixed, in_s, filled_p, filled_box, scheduled};

use crate::tables::Blowfish;
use cipher::BlockCipher;
use cipher::block::Block;

// That a key has a byte stays a `requires` of the three functions here: a type for it would be opened in each of them.

/// The word of the key for word i of P: the bytes at the places 4i to 4i + 3, each place modulo the key's length.
fn key_word(key: &[u8], i: usize) -> u32
    requires { (0 < length key.now) × (i < 18) }
    ensures { result ≡ key_word_of key.now i }
{
    let places = [4 * i, 4 * i + 1, 4 * i + 2, 4 * i + 3];
    u32::from_be_bytes(places.map(|place| key[place % key.len()]))
}

impl Blowfish {
    /// The tables under a key, from those that stand now.
    pub(crate) fn schedule(&mut self, key: &[u8])
        requires { 0 < length key.now }
        ensures { self.new ≡ scheduled self.old key.now }
    {
        self.mix(key);
        let mut last = self.fill_p();
        // by number: while a box is filled, the blocks are enciphered with the whole table
        for k in 0..4 {
            last = self.fill_box(k, last);
        }
    }

    /// Xors the key's words into P.
    fn mix(&mut self, key: &[u8])
        requires { 0 < length key.now }
        ensures { self.new ≡ mixed key.now self.old }
    {
        for (i, pair) in self.p.iter_mut().enumerate() {
            let [odd, even] = *pair;
            *pair = [odd ^ key_word(key, 2 * i), even ^ key_word(key, 2 * i + 1)];
        }
    }

    /// Replaces the words of P, and answers the block that was enciphered last.
    fn fill_p(&mut self) -> Block
        ensures table { self.new ≡ (filled_p self.old).0 }
        ensures last { result ≡ (filled_p self.old).1 }
    {
        let mut last = Block { left: 0, right: 0 };
        // by place: each block is enciphered with the whole table before a pair is written
        for i in 0..9 {
            last = self.encipher(last);
            self.p[i] = [last.left, last.right];
        }
        last
    }

    /// Replaces the words of box k, from the block that was enciphered last.
    fn fill_box(&mut self, k: usize, start: Block) -> Block
        requires { k < 4 }
        ensures table { self.new ≡ (filled_box k (self.old, start)).0 }
        ensures last { result ≡ (filled_box k (self.old, start)).1 }
    {
        let mut last = start;
        // by place: each block is enciphered with the whole table before a pair is written
        for i in 0..128 {
            last = self.encipher(last);
            self.replace(k, i, last);
        }
        last
    }

    /// Replaces pair i of box k.
    fn replace(&mut self, k: usize, i: usize, block: Block)
        requires { (k < 4) × (i < 128) }
        ensures { self.new ≡ in_s k self.old i block }
    {
        // by place: of a slice whose pairs `as_chunks_mut` lends, a proof keeps only the length
        let words = &mut self.s[k];
        words[2 * i] = block.left;
        words[2 * i + 1] = block.right;
    }
}
