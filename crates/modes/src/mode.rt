//! The modes.
ghost use Rattle.std.specs.Prelude.{◌≡◌};
ghost use Rattle.refusal.specs.Refusals.{Answers};
ghost use Rattle.modes.specs.Names.{called, Unnamed};

use cipher::block::Block;
use refusal::Refusal;
use std::str::FromStr;

/// How blocks are chained: by electronic code book, cipher block chaining, cipher feedback or output feedback.
#[derive(Clone, Copy, PartialEq, Eq, Debug)]
pub enum Mode {
    Ecb,
    Cbc,
    Cfb,
    Ofb,
}

/// The mode of a name, or 18 where no mode has it.
impl FromStr for Mode {
    type Err = Refusal;

    ghost from_str_gives = { λ name r. Answers r (λ m. name ≡ (called m).0) (λ n. (n ≡ 18) × Unnamed name) };

    fn from_str(name: &str) -> Result<Mode, Refusal> {
        match name {
            "ECB" => Ok(Mode::Ecb),
            "CBC" => Ok(Mode::Cbc),
            "CFB" => Ok(Mode::Cfb),
            "OFB" => Ok(Mode::Ofb),
            _ => Err(Refusal::Mode),
        }
    }
}

impl Mode {
    /// The mode's name.
    // methods and no `From`: name and code are both said of a mode
    pub fn name(self) -> &'static str
        ensures { result.now ≡ (called self).0 }
    {
        match self {
            Mode::Ecb => "ECB",
            Mode::Cbc => "CBC",
            Mode::Cfb => "CFB",
            Mode::Ofb => "OFB",
        }
    }

    /// The mode's code.
    pub fn code(self) -> u8
        ensures { result ≡ (called self).1 }
    {
        match self {
            Mode::Ecb => 1,
            Mode::Cbc => 2,
            Mode::Cfb => 3,
            Mode::Ofb => 4,
        }
    }
}

/// What a block becomes, and what the next one is chained to.
#[derive(Clone, Copy)]
pub(crate) struct Step {
    pub(crate) out: Block,
    pub(crate) chain: Block,
}
