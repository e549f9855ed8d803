//! Reads calls off lines.
ghost use Rattle.std.specs.Prelude.{◌≡◌, ℕ, List, [], ◌∷◌, codes, vec_items, Decides, MatchOption, ◌≢◌};
ghost use Rattle.cipher.specs.Blocks.{Sound};
ghost use Rattle.cipher.specs.Bytes.{Bytes, bytes_of};
ghost use Rattle.cipher.specs.declared.block.Block.{Block as B};
ghost use Rattle.hex_digits.specs.Digits.{spelled, NoBlock};
ghost use Rattle.script.specs.declared.call.Work.TheVariants as W;
ghost use Rattle.script.specs.Calls.{making, making_words, NoMaking, bytes_word, working, working_words, LawfulWorking, Said, Takes, Reads};
ghost use Rattle.script.specs.Words.{words as words_of};

use crate::call::{Call, Make, Work};
use crate::misread::Misread;
use crate::unreadable::Unreadable;
use crate::verb::Verb;
use crate::words::word;
use std::alloc::Global;

// Heap and line stand apart: a line gets shorter from function to function, and the heap stays.

/// Whether a line has no words.
fn ends(line: &[u8]) -> bool
    ensures { Decides result (words_of line.now ≡ []) }
{
    word(line).is_none()
}

/// The one word that a line has, if it has just one.
fn last_word(line: &[u8]) -> Option<&[u8]>
    ensures { MatchOption result ((w : List ℕ) → words_of line.now ≢ w ∷ []) (λ x. words_of line.now ≡ x.now ∷ []) }
{
    let (first, rest) = word(line)?;
    ends(rest).then_some(first)
}

/// The three words that a line has, if it has just three, as the parts of a triple.
fn triple(line: &[u8]) -> Option<Make<'_>>
    ensures { MatchOption result ((a b c : List ℕ) → words_of line.now ≢ a ∷ b ∷ c ∷ []) (λ m. making_words (making m) ≡ codes "triple" ∷ words_of line.now) }
{
    let (first, rest) = word(line)?;
    let (second, rest) = word(rest)?;
    let third = last_word(rest)?;
    Some(Make::Triple(first, second, third))
}

/// What a cipher is to be made as, by the words after its name.
fn make(line: &[u8]) -> Option<Make<'_>>
    ensures { MatchOption result (NoMaking (words_of line.now)) (λ m. words_of line.now ≡ making_words (making m)) }
{
    let (kind, rest) = word(line)?;
    match kind {
        b"blowfish" => ends(rest).then_some(Make::Blowfish),
        b"xtea" => ends(rest).then_some(Make::Xtea),
        b"triple" => triple(rest),
        _ => None,
    }
}

/// The bytes that a word says: capital hexadecimal digits, or a hyphen for none.
fn bytes(heap: Global, word: &[u8]) -> Result<Vec<u8>, Misread>
    ensures { Said Bytes bytes_word vec_items word.now result }
{
    if word.is_empty() {
        return Err(Misread::Form);
    }
    if word == b"-".as_slice() {
        return Ok(Vec::new(heap));
    }
    digit_bytes(heap, word)
}

/// The bytes that digits spell.
fn digit_bytes(heap: Global, digits: &[u8]) -> Result<Vec<u8>, Misread>
    ensures { Said Bytes spelled vec_items digits.now result }
{
    let mut bytes = vec![in heap; 0; digits.len() / 2]?;
    match hex_digits::read(digits, bytes.as_mut_slice()) {
        Ok(()) => Ok(bytes),
        Err(_) => Err(Misread::Form),
    }
}

/// The bytes that a line says in its one word.
fn last_bytes(heap: Global, line: &[u8]) -> Result<Vec<u8>, Misread>
    ensures { Said Bytes (λ bs. bytes_word bs ∷ []) vec_items (words_of line.now) result }
{
    let word = last_word(line).ok_or(Misread::Form)?;
    bytes(heap, word)
}

/// A text by a mode: the start and the text stand in `line`, behind the mode's name.
fn text<'a>(heap: Global, name: &'a [u8], start: &[u8], line: &[u8]) -> Result<Work<'a>, Misread>
    ensures { Said LawfulWorking working_words working (name.now ∷ start.now ∷ words_of line.now) result }
{
    let start = hex_digits::read_block(start).ok_or(Misread::Form)?;
    let text = last_bytes(heap, line)?;
    Ok(Work::Text(name, start, text))
}

/// What is to be enciphered or deciphered.
fn work<'a>(heap: Global, line: &'a [u8]) -> Result<Work<'a>, Misread>
    ensures { Said LawfulWorking working_words working (words_of line.now) result }
{
    let (first, rest) = word(line).ok_or(Misread::Form)?;
    match word(rest) {
        Some((start, rest)) => text(heap, first, start, rest),
        None => one(first).ok_or(Misread::Form),
    }
}

/// One block, if a word is one.
fn one<'a>(digits: &'a [u8]) -> Option<Work<'a>>
    ensures { MatchOption result (NoBlock digits.now) (λ x. (b : B) × (x ≡ W.Block b) × (spelled (bytes_of b) ≡ digits.now) × Sound b) }
{
    let block = hex_digits::read_block(digits)?;
    Some(Work::Block(block))
}

/// The call that a line says after its verb.
fn after<'a>(heap: Global, verb: Verb, line: &'a [u8]) -> Result<Call<'a>, Misread>
    ensures { Takes verb (words_of line.now) result }
{
    let (name, rest) = word(line).ok_or(Misread::Form)?;
    match verb {
        Verb::Cipher => Ok(Call::Cipher(name, make(rest).ok_or(Misread::Form)?)),
        Verb::Load => Ok(Call::Load(name, last_bytes(heap, rest)?)),
        Verb::Encipher => Ok(Call::Encipher(name, work(heap, rest)?)),
        Verb::Decipher => Ok(Call::Decipher(name, work(heap, rest)?)),
        Verb::Mode if ends(rest) => Ok(Call::Mode(name)),
        Verb::Mode => Err(Misread::Form),
        Verb::Tag => Ok(Call::Tag(name, last_bytes(heap, rest)?)),
    }
}

/// The call that a line says: none where it has no words.
pub fn read<'a>(heap: Global, line: &'a [u8]) -> Result<Option<Call<'a>>, Unreadable>
    ensures { Reads (words_of line.now) result }
{
    let Some((first, rest)) = word(line) else {
        return Ok(None);
    };
    let verb = Verb::try_from(first)?;
    let call = after(heap, verb, rest).map_err(|misread| misread.after(verb))?;
    Ok(Some(call))
}
