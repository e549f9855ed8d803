//! Bytes in capital hexadecimal digits, two to a byte, the higher digit first.
//!
//! Public: `read`, which refuses with `Misspelt`, `read_block`, `spell`, `spell_block`.
#![tactic(auto)]

// The library `hex` reads small letters too and asks for memory; here only capitals are digits, and bytes go into what is lent.

ghost use Rattle.std.specs.Prelude.{◌≡◌, ◌<◌, [], ◌∷◌, length, IfOk, MatchBool, MatchOption, MatchResult};
ghost use Rattle.std.specs.String.{string_bytes};
ghost use Rattle.cipher.specs.Bytes.{Bytes, bytes_of};
ghost use Rattle.hex_digits.specs.Digits.{digit_of, spelled, Unspelt, NoBlock};
ghost use Rattle.hex_digits.specs.Worth.{IsDigit, NoDigit, IsByte, NoByte, AllBytes, SomeOther};

use cipher::block::Block;
use std::alloc::{AllocError, Global};
use std::array;

/// The refusal of digits that spell no bytes, or not so many as are wanted.
#[derive(Clone, Copy, PartialEq, Eq, Debug)]
pub struct Misspelt;

/// Whether a byte is a digit.
// asked first: with a worth that is an `Option`, a line of vectors takes a third longer
#[tactic(auto, using(crate::proofs::Spelling::numeral, crate::proofs::Spelling::letter))]
fn is_digit(byte: u8) -> bool
    ensures { MatchBool result (IsDigit byte) (NoDigit byte) }
{
    matches!(byte, b'0'..=b'9' | b'A'..=b'F')
}

/// What a digit is worth.
fn worth(digit: u8) -> u8
    requires { IsDigit digit }
    ensures { (result < 16) × (digit_of result ≡ digit) }
{
    if digit < b'A' {
        digit - b'0'
    } else {
        digit - b'A' + 10
    }
}

/// Whether a pair is the two digits of a byte.
fn is_byte(pair: &[u8; 2]) -> bool
    ensures { MatchBool result (IsByte pair.now) (NoByte pair.now) }
{
    is_digit(pair[0]) && is_digit(pair[1])
}

/// The byte that two digits spell.
fn byte_of(pair: &[u8; 2]) -> u8
    requires { IsByte pair.now }
    ensures { spelled (result ∷ []) ≡ pair.now }
{
    worth(pair[0]) * 16 + worth(pair[1])
}

/// Whether each pair of digits spells a byte.
fn all_bytes(pairs: &[[u8; 2]]) -> bool
    ensures { MatchBool result (AllBytes pairs.now) (SomeOther pairs.now) }
{
    pairs.iter().all(|pair| is_byte(pair))
}

/// Reads digits into `bytes`; where they do not spell just so many bytes, `bytes` is as it was.
pub fn read(digits: &[u8], bytes: &mut [u8]) -> Result<(), Misspelt>
    ensures { MatchResult result
        (λ _. (spelled bytes.new ≡ digits.now) × Bytes bytes.new)
        (λ _. Unspelt (length bytes.old) digits.now × (bytes.new ≡ bytes.old)) }
{
    let (pairs, []) = digits.as_chunks::<2>() else {
        return Err(Misspelt);
    };
    if pairs.len() != bytes.len() || !all_bytes(pairs) {
        return Err(Misspelt);
    }
    // by index: of a slice that `iter_mut` lends to a `zip` a proof keeps only the length
    for (i, pair) in pairs.iter().enumerate() {
        bytes[i] = byte_of(pair);
    }
    Ok(())
}

/// The block that sixteen digits spell, or none where they spell none.
pub fn read_block(digits: &[u8]) -> Option<Block>
    ensures { MatchOption result (NoBlock digits.now) (λ b. spelled (bytes_of b) ≡ digits.now) }
{
    let mut bytes = [0; 8];
    read(digits, &mut bytes).ok()?;
    Some(Block::from(bytes))
}

/// The digit of a number below 16.
fn digit(number: u8) -> u8
    requires { number < 16 }
    ensures { result ≡ digit_of number }
{
    if number < 10 {
        b'0' + number
    } else {
        b'A' + (number - 10)
    }
}

#[tactic(auto, unfolding(crate::specs::Digits::spelled))]
/// The two digits of a byte.
fn digits_of(byte: u8) -> [u8; 2]
    ensures { result ≡ spelled (byte ∷ []) }
{
    [digit(byte / 16), digit(byte % 16)]
}

/// The sixteen digits of a block.
// beside `spell`, since it asks for no memory: what answers a line of vectors has no heap
pub fn spell_block(block: Block) -> [u8; 16]
    ensures { result ≡ spelled (bytes_of block) }
{
    let bytes: [u8; 8] = block.into();
    // by bytes first, so that each byte's digits are made once
    let pairs = bytes.map(digits_of);
    array::from_fn(|i| pairs[i / 2][i % 2])
}

/// The digits of bytes.
pub fn spell(heap: Global, bytes: &[u8]) -> Result<String, AllocError>
    ensures { IfOk result (λ s. string_bytes s ≡ spelled bytes.now) }
{
    let mut digits = String::new(heap);
    for byte in bytes {
        let [high, low] = digits_of(*byte);
        digits.push(char::from(high))?;
        digits.push(char::from(low))?;
    }
    Ok(digits)
}
