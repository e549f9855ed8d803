//! The tables, and the rounds over them.
ghost use Rattle.std.specs.Prelude.{◌≡◌, ◌≤◌, map};
ghost use Rattle.blowfish.specs.Blowfish.{f as f_of, turned, odd_back_of, even_back_of, begun, exchanged, enciphering, deciphering};
ghost use Rattle.blowfish.specs.Schedule.{initial};

use crate::pi;
use cipher::block::Block;

/// Sixteen rounds, an odd and an even one to a pair.
const PAIRS: usize = 8;

/// Blowfish under the key that was loaded last; at the tables of pi before any load.
#[derive(Clone, Copy)]
pub struct Blowfish {
    pub(crate) p: [[u32; 2]; 9],
    pub(crate) s: [[u32; 256]; 4],
}

/// The halves exchanged.
fn exchange(block: Block) -> Block
    ensures { result ≡ exchanged block }
{
    Block {
        left: block.right,
        right: block.left,
    }
}

/// Two words of P in the halves.
fn begin(left: u32, right: u32, block: Block) -> Block
    ensures { result ≡ begun left right block }
{
    block ^ Block { left, right }
}

impl Blowfish {
    /// Blowfish at the tables of pi themselves, under no key.
    #[tactic(auto, unfolding(crate::specs::Schedule::initial))]
    pub fn new() -> Blowfish
        ensures { result ≡ initial }
    {
        Blowfish { p: pi::P, s: pi::S }
    }

    /// f of a word.
    fn f(&self, word: u32) -> u32
        ensures { result ≡ f_of self.now word }
    {
        let a = self.s[0][(word >> 24) as usize];
        let b = self.s[1][((word >> 16) % 256) as usize];
        let c = self.s[2][((word >> 8) % 256) as usize];
        let d = self.s[3][(word % 256) as usize];
        (a.wrapping_add(b) ^ c).wrapping_add(d)
    }

    /// One round on halves that have their words of P in them already; the next word for the half that waits; and the halves exchanged.
    #[tactic(auto, unfolding(crate::specs::Blowfish::turned))]
    fn turn(&self, word: u32, block: Block) -> Block
        ensures { result ≡ turned self.now word block }
    {
        Block {
            left: block.right ^ self.f(block.left),
            right: block.left ^ word,
        }
    }

    /// Two rounds so.
    fn turns(&self, odd: u32, even: u32, block: Block) -> Block
        ensures { result ≡ turned self.now even (turned self.now odd block) }
    {
        self.turn(even, self.turn(odd, block))
    }

    /// The odd round undone.
    #[tactic(auto, unfolding(crate::specs::Blowfish::odd_back_of))]
    fn odd_back(&self, word: u32, block: Block) -> Block
        ensures { result ≡ odd_back_of self.now word block }
    {
        // f first, since the next round waits for it
        let right = block.right ^ self.f(block.left);
        Block {
            left: block.left ^ word,
            right,
        }
    }

    /// The even round undone.
    #[tactic(auto, unfolding(crate::specs::Blowfish::even_back_of))]
    fn even_back(&self, word: u32, block: Block) -> Block
        ensures { result ≡ even_back_of self.now word block }
    {
        Block {
            left: block.left ^ self.f(block.right),
            right: block.right ^ word,
        }
    }

    /// Two rounds undone.
    fn pair_back(&self, odd: u32, even: u32, block: Block) -> Block
        ensures { result ≡ odd_back_of self.now odd (even_back_of self.now even block) }
    {
        self.odd_back(odd, self.even_back(even, block))
    }

    /// One block through all rounds.
    // a twin of `forward`: the halves of an array of one are packed into one word and unpacked, which makes a block 8 in 100 slower
    pub(crate) fn forward_one(&self, block: Block) -> Block
        ensures { result ≡ enciphering self.now PAIRS block }
    {
        let [left, right] = self.p[0];
        let mut x = begin(left, right, block);
        let rest = &self.p[1..=PAIRS];
        for &[odd, even] in rest {
            x = self.turns(odd, even, x);
        }
        exchange(x)
    }

    /// Blocks through all rounds, each pair of rounds for every block before the next pair.
    // Each round's word of P is xored in a round early: one xor less stands between a round and the next.
    pub(crate) fn forward<const N: usize>(&self, blocks: [Block; N]) -> [Block; N]
        requires { N ≤ 4 }
        ensures { result ≡ map (enciphering self.now PAIRS) blocks.entry }
    {
        let [left, right] = self.p[0];
        let mut blocks = blocks.map(|block| begin(left, right, block));
        for &[odd, even] in &self.p[1..=PAIRS] {
            blocks = blocks.map(|block| self.turns(odd, even, block));
        }
        blocks.map(exchange)
    }

    /// Blocks back through all rounds, each pair of rounds for every block before the next pair.
    pub(crate) fn backward<const N: usize>(&self, blocks: [Block; N]) -> [Block; N]
        requires { N ≤ 4 }
        ensures { result ≡ map (deciphering self.now PAIRS) blocks.entry }
    {
        let [left, right] = self.p[PAIRS];
        let mut blocks = blocks.map(|block| begin(left, right, exchange(block)));
        for &[odd, even] in self.p[..PAIRS].iter().rev() {
            blocks = blocks.map(|block| self.pair_back(odd, even, block));
        }
        blocks
    }
}
