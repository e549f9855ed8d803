//! A cipher that is chosen while a program runs.
//!
//! Public: `Kind` with `name`, made of a `&Chosen` by `From`; `Keyed`, made by `blowfish` or `xtea`, and `load` for its keys; `Chosen`.
//! Both are ciphers by `BlockCipher`.
#![tactic(auto)]

ghost use Rattle.std.specs.Prelude.{◌≡◌, Some, length};
ghost use Rattle.refusal.specs.Refusals.{Answers};
ghost use Rattle.chosen.specs.Kinds.{kind_name, keyed_kind, chosen_kind};
ghost use Rattle.chosen.specs.Meanings.{Lengths, Loaded, Fresh};

use blowfish::Blowfish;
use cipher::{KeyedCipher, OneOf, Triple};
use refusal::Refusal;
use std::fmt;
use xtea::Xtea;

/// The kinds of cipher there are to choose from.
#[derive(Clone, Copy, PartialEq, Eq, Debug)]
pub enum Kind {
    Blowfish,
    Xtea,
    Triple,
}

impl Kind {
    /// The kind's name, as scripts write it.
    pub fn name(self) -> &'static str
        ensures { result.now ≡ kind_name self }
    {
        match self {
            Kind::Blowfish => "blowfish",
            Kind::Xtea => "xtea",
            Kind::Triple => "triple",
        }
    }
}

/// The kind of a cipher.
impl From<&Chosen> for Kind {
    ghost from_gives = { λ cipher kind. kind ≡ chosen_kind cipher.now };

    fn from(cipher: &Chosen) -> Kind {
        match cipher {
            OneOf::First(OneOf::First(_)) => Kind::Blowfish,
            OneOf::First(OneOf::Second(_)) => Kind::Xtea,
            OneOf::Second(_) => Kind::Triple,
        }
    }
}

/// The kind's name.
impl fmt::Display for Kind {
    ghost output = { λ k. Some (kind_name k) };

    fn fmt<W: fmt::Write>(&self, f: &mut fmt::Formatter<W>) -> fmt::Result {
        f.write_str(self.name())
    }
}

/// A keyed cipher of either kind.
pub type Keyed = OneOf<Blowfish, Xtea>;

/// One keyed cipher, or three in a row.
pub type Chosen = OneOf<Keyed, Triple<Keyed, Keyed, Keyed>>;

/// Blowfish before any load.
pub fn blowfish() -> Keyed
    ensures { Fresh Kind.Blowfish result }
{
    Keyed::First(Blowfish::new())
}

/// XTEA before any load.
pub fn xtea() -> Keyed
    ensures { Fresh Kind.Xtea result }
{
    Keyed::Second(Xtea::new())
}

/// Loads a key: accepted exactly at a length that the kind takes, and then E and D are the kind's under that key;
/// else 16, and the cipher is as it was. The kind stays.
#[tactic(auto, using(crate::proofs::Loading::by_kind))]
pub fn load(cipher: &mut Keyed, key: &[u8]) -> Result<(), Refusal>
    ensures loads { Answers result
        (λ _. Loaded cipher.old cipher.new key.now)
        (λ n. (n ≡ 16) × (Lengths (keyed_kind cipher.old) (length key.now) → ⊥) × (cipher.new ≡ cipher.old)) }
    ensures kind { keyed_kind cipher.new ≡ keyed_kind cipher.old }
{
    cipher.load_key(key)
}
