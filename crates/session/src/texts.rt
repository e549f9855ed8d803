//! Texts by a mode, for a session.
ghost use Rattle.std.specs.Prelude.{◌≡◌, IfOk};
ghost use Rattle.std.specs.String.{string_bytes};
ghost use Rattle.chosen.specs.Meanings.{chosen_enc};
ghost use Rattle.modes.specs.Names.{called, Unnamed};
ghost use Rattle.refusal.specs.Refusals.{Answers};
ghost use Rattle.script.specs.Calls.{bytes_word};
ghost use Rattle.session.specs.Answers.{answer_of};
ghost use Rattle.session.specs.Calls.{ByMode};

use crate::answer::Value;
use crate::fault::Fault;
use crate::way::Way;
use chosen::Chosen;
use cipher::block::Block;
use modes::Mode;
use refusal::Refusal;
use std::alloc::{AllocError, Global};
use std::str::from_utf8;

/// The mode that a word names, or 18.
pub(crate) fn mode_named(word: &[u8]) -> Result<Mode, Refusal>
    ensures { Answers result (λ m. word.now ≡ (called m).0) (λ n. (n ≡ 18) × Unnamed word.now) }
{
    match from_utf8(word) {
        Ok(name) => name.parse(),
        Err(_) => Err(Refusal::Mode),
    }
}

/// The word that says bytes: their digits, or a hyphen for none.
fn word_of(heap: Global, bytes: &[u8]) -> Result<String, AllocError>
    ensures { IfOk result (λ s. string_bytes s ≡ bytes_word bytes.now) }
{
    if bytes.is_empty() {
        return String::from_str(heap, "-");
    }
    hex_digits::spell(heap, bytes)
}

/// A text by the mode of a name, either way: the block with which a following piece starts, and the text.
pub(crate) fn by_mode<W: Way>(
    heap: Global,
    cipher: &Chosen,
    mode: &[u8],
    start: Block,
    mut text: Vec<u8>,
) -> Result<Value, Fault>
    ensures { ByMode W.relates mode.now (chosen_enc cipher.now) start text.items (answer_of result) }
{
    let mode = mode_named(mode)?;
    let next = W::text(cipher, mode, start, text.as_mut_slice())?;
    let word = word_of(heap, text.as_slice())?;
    Ok(Value::Text(next, word))
}
