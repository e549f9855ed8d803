//! One line of test vectors, a key and a plaintext, and the line that answers it.
//!
//! Public: `answer`, and `Reply` with `ciphertext` and `bytes`.
#![tactic(auto)]

ghost use Rattle.std.specs.Prelude.{◌≤◌, MatchOption};
ghost use Rattle.vector.specs.Lines.{Parted, Whole, Serves, Answered};
ghost use Rattle.vector.specs.Replies.{reply_bytes, digits_or_hyphen};

mod reply;

use blowfish::Blowfish;
use cipher::{KeyedCipher, encipher_under};
pub use reply::Reply;
use xtea::Xtea;

/// How long a line for Blowfish is: sixteen digits, a space, sixteen digits. Any other line can only be one for XTEA.
const BLOWFISH_LINE: usize = 33;

/// The answer to a line, which comes without its line feed: the ciphertext, or a hyphen for a line of any other form.
pub fn answer(line: &[u8]) -> Reply
    ensures { Answered line.now (reply_bytes result) }
{
    if line.len() == BLOWFISH_LINE {
        Reply::from(under::<_, 8>(&mut Blowfish::new(), line))
    } else {
        Reply::from(under::<_, 16>(&mut Xtea::new(), line))
    }
}

/// A line's first `digits` bytes and what follows one space after them.
fn parted(line: &[u8], digits: usize) -> Option<(&[u8], &[u8])>
    ensures { MatchOption result (Whole digits line.now) (λ x. Parted digits line.now x.0.now x.1.now) }
{
    let (front, [b' ', rest @ ..]) = line.split_at_checked(digits)? else {
        return None;
    };
    Some((front, rest))
}

/// The digits of the ciphertext by one keyed cipher, which takes keys of `N` bytes.
fn under<K: KeyedCipher, const N: usize>(cipher: &mut K, line: &[u8]) -> Option<[u8; 16]>
    requires few { N ≤ 56 }
    requires taken { K.KeyedCipher.takes cipher.old N }
    ensures { Serves (K.KeyedCipher.enc_under cipher.old) N line.now (digits_or_hyphen result) }
{
    let (digits, text) = parted(line, 2 * N)?;
    let block = hex_digits::read_block(text)?;
    let mut key = [0; N];
    hex_digits::read(digits, &mut key).ok()?;
    let enciphered = encipher_under(cipher, &key, block).ok()?;
    Some(hex_digits::spell_block(enciphered))
}
