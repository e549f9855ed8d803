//! What is written for a line.
ghost use Rattle.std.specs.Prelude.{◌≡◌};
ghost use Rattle.vector.specs.Replies.{reply_bytes, digits_or_hyphen};

/// The digits of a ciphertext; none, which is written as a hyphen, for a line of no such form.
#[derive(Clone, Copy, PartialEq, Eq, Debug)]
pub struct Reply {
    pub ciphertext: Option<[u8; 16]>,
}

impl From<Option<[u8; 16]>> for Reply {
    ghost from_gives = { λ digits r. reply_bytes r ≡ digits_or_hyphen digits };

    fn from(ciphertext: Option<[u8; 16]>) -> Reply {
        Reply { ciphertext }
    }
}

impl Reply {
    /// The bytes of the line that is written, without its line feed.
    pub fn bytes(&self) -> &[u8]
        ensures { result.now ≡ reply_bytes self.now }
    {
        match &self.ciphertext {
            Some(digits) => digits,
            None => b"-",
        }
    }
}
