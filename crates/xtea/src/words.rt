//! What XTEA reckons with: one word, or eight words in lanes, so that one text enciphers one block or eight.
ghost use Rattle.std.specs.Prelude.{◌≡◌, ℕ, ◌*◌, ◌/◌, ◌%◌, ◌^◌, ◌<◌, get_or};
ghost use Rattle.std.specs.Int.Bits.{bit_xor};
ghost use Rattle.cipher.specs.Words.{plus as sum_of, minus as difference_of};
ghost use Rattle.xtea.specs.Xtea.{mixed};

use std::simd::prelude::*;

/// Words in lanes, each reckoned with apart from the others.
// methods and no operators: `+` of two `u32` may not wrap, and each method says what it does lane by lane
pub(crate) trait Word: Copy {
    /// How many lanes there are.
    ghost lanes: { ℕ };

    /// The word in a lane.
    ghost lane: { Self → ℕ → ℕ };

    /// The word in every lane.
    fn splat(word: u32) -> Self
        ensures { (k : ℕ) → k < lanes → lane result k ≡ word };

    fn plus(self, other: Self) -> Self
        ensures { (k : ℕ) → k < lanes → lane result k ≡ sum_of (lane self k) (lane other k) };

    fn minus(self, other: Self) -> Self
        ensures { (k : ℕ) → k < lanes → lane result k ≡ difference_of (lane self k) (lane other k) };

    fn xor(self, other: Self) -> Self
        ensures { (k : ℕ) → k < lanes → lane result k ≡ bit_xor (lane self k) (lane other k) };

    /// The word in each lane shifted left.
    fn shift_left(self, places: u32) -> Self
        requires { places < 32 }
        ensures { (k : ℕ) → k < lanes → lane result k ≡ lane self k * 2 ^ places % 2 ^ 32 };

    /// The word in each lane shifted right.
    fn shift_right(self, places: u32) -> Self
        requires { places < 32 }
        ensures { (k : ℕ) → k < lanes → lane result k ≡ lane self k / 2 ^ places };
}

impl Word for u32 {
    ghost lanes = { 1 };

    ghost lane = { λ word _. word };

    fn splat(word: u32) -> u32 {
        word
    }

    fn plus(self, other: u32) -> u32 {
        self.wrapping_add(other)
    }

    fn minus(self, other: u32) -> u32 {
        self.wrapping_sub(other)
    }

    fn xor(self, other: u32) -> u32 {
        self ^ other
    }

    fn shift_left(self, places: u32) -> u32 {
        self << places
    }

    fn shift_right(self, places: u32) -> u32 {
        self >> places
    }
}

impl Word for u32x8 {
    ghost lanes = { 8 };

    ghost lane = { λ words k. get_or words k 0 };

    fn splat(word: u32) -> u32x8 {
        u32x8::splat(word)
    }

    fn plus(self, other: u32x8) -> u32x8 {
        self + other
    }

    fn minus(self, other: u32x8) -> u32x8 {
        self - other
    }

    fn xor(self, other: u32x8) -> u32x8 {
        self ^ other
    }

    fn shift_left(self, places: u32) -> u32x8 {
        self << u32x8::splat(places)
    }

    fn shift_right(self, places: u32) -> u32x8 {
        self >> u32x8::splat(places)
    }
}

/// m of the word in each lane.
pub(crate) fn mix<W: Word>(word: W) -> W
    ensures { (k : ℕ) → k < W.lanes → W.lane result k ≡ mixed (W.lane word k) }
{
    word.shift_left(4).xor(word.shift_right(5)).plus(word)
}
