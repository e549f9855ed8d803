//! Every refusal of every layer, with its number and a short reason for people.
//!
//! A refusal rises through the layers unaltered, and its number tells where it comes from.
//! Public: `Refusal`, with `number`, `layer`, `reason` and `Display`; `Layer`.
#![tactic(auto)]

ghost use Rattle.std.specs.Prelude.{◌≡◌, ◌≤◌, ◌∷◌, ◌++◌, Some, decimal};
ghost use Rattle.refusal.specs.declared.Refusal.{Refusal as Reason};
ghost use Rattle.refusal.specs.Refusals.{number_of, layer_of, reason_of};

use std::fmt;

/// Why a call was turned down. The names follow the numbers, 1 to 18.
#[derive(Clone, Copy, PartialEq, Eq, Debug)]
pub enum Refusal {
    NumberOutOfRange,
    Withdrawn,
    NoLawfulCurve,
    AlreadyInForce,
    NoFreePlace,
    NotInForce,
    StageOffCurve,
    ParcelLength,
    Header,
    Tag,
    TooShort,
    Padding,
    NoLawfulBundle,
    OtherPoints,
    SerialUsedUp,
    KeyLength,
    TextLength,
    Mode,
}

/// The part of the system that a refusal comes from.
#[derive(Clone, Copy, PartialEq, Eq, Debug)]
pub enum Layer {
    Register,
    Parcel,
    Bundle,
    Cipher,
}

impl Refusal {
    /// The refusal's number: no other refusal has it.
    // a method and no `From`: number, layer and reason are all said of a refusal, and a name tells which is meant
    pub fn number(self) -> u8
        ensures value { result ≡ number_of self }
        ensures within { (1 ≤ result) × (result ≤ 18) }
        ensures alone { (other : Reason) → number_of other ≡ result → other ≡ self }
    {
        match self {
            Refusal::NumberOutOfRange => 1,
            Refusal::Withdrawn => 2,
            Refusal::NoLawfulCurve => 3,
            Refusal::AlreadyInForce => 4,
            Refusal::NoFreePlace => 5,
            Refusal::NotInForce => 6,
            Refusal::StageOffCurve => 7,
            Refusal::ParcelLength => 8,
            Refusal::Header => 9,
            Refusal::Tag => 10,
            Refusal::TooShort => 11,
            Refusal::Padding => 12,
            Refusal::NoLawfulBundle => 13,
            Refusal::OtherPoints => 14,
            Refusal::SerialUsedUp => 15,
            Refusal::KeyLength => 16,
            Refusal::TextLength => 17,
            Refusal::Mode => 18,
        }
    }

    /// The layer that the number tells.
    pub fn layer(self) -> Layer
        ensures { result ≡ layer_of (number_of self) }
    {
        match self {
            Refusal::KeyLength | Refusal::TextLength | Refusal::Mode => Layer::Cipher,
            Refusal::NoLawfulBundle => Layer::Bundle,
            Refusal::ParcelLength
            | Refusal::Header
            | Refusal::Tag
            | Refusal::TooShort
            | Refusal::Padding => Layer::Parcel,
            _ => Layer::Register,
        }
    }

    /// The reason in plain words.
    pub fn reason(self) -> &'static str
        ensures { result.now ≡ reason_of self }
    {
        match self {
            Refusal::NumberOutOfRange => "number outside 1 to 1024",
            Refusal::Withdrawn => "withdrawn",
            Refusal::NoLawfulCurve => "lists of unequal length or no lawful curve",
            Refusal::AlreadyInForce => "already in force",
            Refusal::NoFreePlace => "no free place",
            Refusal::NotInForce => "not in force",
            Refusal::StageOffCurve => "stage below the first point or above the last",
            Refusal::ParcelLength => "parcel length",
            Refusal::Header => "header: version, mode code or serial",
            Refusal::Tag => "tag",
            Refusal::TooShort => "buffer or list too short",
            Refusal::Padding => "padding",
            Refusal::NoLawfulBundle => "no lawful bundle",
            Refusal::OtherPoints => "a curve in force here has other points",
            Refusal::SerialUsedUp => "serial used up",
            Refusal::KeyLength => "key length",
            Refusal::TextLength => "text length",
            Refusal::Mode => "unknown mode, or a mode that may not be used here",
        }
    }
}

/// Number and reason, as `16 key length`.
impl fmt::Display for Refusal {
    ghost output = { λ e. Some (decimal (number_of e) ++ (32 ∷ reason_of e)) };

    fn fmt<W: fmt::Write>(&self, f: &mut fmt::Formatter<W>) -> fmt::Result {
        let number = self.number();
        let reason = self.reason();
        write!(f, "{number} {reason}")
    }
}
