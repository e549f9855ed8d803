//! The words that calls begin with.
ghost use Rattle.std.specs.Prelude.{◌≡◌, MatchResult};
ghost use Rattle.script.specs.declared.unreadable.Unreadable.TheVariants.{UnknownVerb};
ghost use Rattle.script.specs.Verbs.{verb_word, usage_of, NoVerb};

use crate::unreadable::Unreadable;

/// What a call asks for, by its first word.
#[derive(Clone, Copy, PartialEq, Eq, Debug)]
pub enum Verb {
    Cipher,
    Load,
    Encipher,
    Decipher,
    Mode,
    Tag,
}

/// The verb that a word is; a word that is none is an unknown one.
impl TryFrom<&[u8]> for Verb {
    type Error = Unreadable;

    ghost try_from_gives = { λ word r. MatchResult r (λ v. word.now ≡ verb_word v) (λ e. (e ≡ UnknownVerb) × NoVerb word.now) };

    fn try_from(word: &[u8]) -> Result<Verb, Unreadable> {
        match word {
            b"cipher" => Ok(Verb::Cipher),
            b"load" => Ok(Verb::Load),
            b"encipher" => Ok(Verb::Encipher),
            b"decipher" => Ok(Verb::Decipher),
            b"mode" => Ok(Verb::Mode),
            b"tag" => Ok(Verb::Tag),
            _ => Err(Unreadable::UnknownVerb),
        }
    }
}

impl Verb {
    /// How a call of this verb is written.
    pub fn usage(self) -> &'static str
        ensures { result.now ≡ usage_of self }
    {
        match self {
            Verb::Cipher =>
                "write cipher NAME blowfish, cipher NAME xtea or cipher NAME triple A B C",
            Verb::Load => "write load NAME KEY",
            Verb::Encipher => "write encipher NAME BLOCK or encipher NAME MODE START TEXT",
            Verb::Decipher => "write decipher NAME BLOCK or decipher NAME MODE START TEXT",
            Verb::Mode => "write mode NAME",
            Verb::Tag => "write tag NAME TEXT",
        }
    }
}
