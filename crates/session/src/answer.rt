//! What a line of a script comes to.
ghost use Rattle.std.specs.Prelude.{◌≡◌, Some};
ghost use Rattle.session.specs.Answers.{answer_of};
ghost use Rattle.session.specs.Texts.{shown_answer, shown_block};

use crate::fault::Fault;
use cipher::block::Block;
use refusal::Refusal;
use script::Unreadable;
use std::fmt;
use std::str::from_utf8;

/// What an accepted call answers. A text is given by the word that says its bytes.
#[derive(PartialEq, Eq, Debug, Drop)]
pub enum Value {
    Nothing,
    Code(u8),
    Block(Block),
    Text(Block, String),
}

/// A call is accepted with its value or refused; a line that is no call is unreadable.
// beside the `Result` by which calls fail: whoever prints or counts asks once, and has a case for each
#[derive(PartialEq, Eq, Debug, Drop)]
pub enum Answer {
    Accepted(Value),
    Refused(Refusal),
    Unreadable(Unreadable),
}

impl From<Result<Value, Fault>> for Answer {
    ghost from_gives = { λ r a. a ≡ answer_of r };

    fn from(outcome: Result<Value, Fault>) -> Answer {
        match outcome {
            Ok(value) => Answer::Accepted(value),
            Err(Fault::Refused(refusal)) => Answer::Refused(refusal),
            Err(Fault::Unreadable(why)) => Answer::Unreadable(why),
        }
    }
}

/// A block as its sixteen digits.
#[derive(Clone, Copy)]
struct Digits(Block);

impl fmt::Display for Digits {
    ghost output = { λ d. Some (shown_block d.0) };

    fn fmt<W: fmt::Write>(&self, f: &mut fmt::Formatter<W>) -> fmt::Result {
        match from_utf8(&hex_digits::spell_block(self.0)) {
            Ok(digits) => f.write_str(digits),
            Err(_) => Err(fmt::Error),
        }
    }
}

/// `accepted` and the value, `refused` with number and reason, or `unreadable` and why.
impl fmt::Display for Answer {
    ghost output = { λ a. Some (shown_answer a) };

    fn fmt<W: fmt::Write>(&self, f: &mut fmt::Formatter<W>) -> fmt::Result {
        match self {
            Answer::Accepted(Value::Nothing) => f.write_str("accepted"),
            Answer::Accepted(Value::Code(code)) => write!(f, "accepted {code}"),
            Answer::Accepted(Value::Block(block)) => write!(f, "accepted {}", Digits(*block)),
            Answer::Accepted(Value::Text(next, word)) => {
                write!(f, "accepted {} {word}", Digits(*next))
            }
            Answer::Refused(refusal) => write!(f, "refused {refusal}"),
            Answer::Unreadable(why) => write!(f, "unreadable, {why}"),
        }
    }
}
