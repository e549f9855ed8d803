//! The tag: CMAC with blocks of 64 bits.
ghost use Rattle.std.specs.Prelude.{◌≡◌, ◌<◌, ◌≤◌, length};
ghost use Rattle.modes.specs.Cmac.{doubled, padded, last_block, tag_of, Tags};

use crate::LONGEST;
use cipher::BlockCipher;
use cipher::block::Block;
use refusal::Refusal;

/// What doubling xors in where the top bit was set.
const CARRY: u32 = 0x1B;

/// One bit to the left over both words.
fn twice(block: Block) -> Block
    ensures { result ≡ doubled block }
{
    let carry = if block.left < 0x8000_0000 { 0 } else { CARRY };
    Block {
        left: (block.left << 1) | (block.right >> 31),
        right: (block.right << 1) ^ carry,
    }
}

/// Fewer than eight bytes, then 80 and zeros.
fn padded_block(rest: &[u8]) -> Block
    requires { length rest.now < 8 }
    ensures { result ≡ padded rest.now }
{
    let mut full = [0; 8];
    full[..rest.len()].copy_from_slice(rest);
    full[rest.len()] = 0x80;
    Block::from(full)
}

/// The last block, xored with K1 if it is full, else padded and xored with K2, which is K1 doubled.
fn keyed_last(rest: &[u8], k1: Block) -> Block
    requires { length rest.now ≤ 8 }
    ensures { result ≡ last_block k1 (doubled k1) rest.now }
{
    match rest.first_chunk::<8>() {
        Some(bytes) => Block::from(*bytes) ^ k1,
        None => padded_block(rest) ^ twice(k1),
    }
}

/// The last cipher block of CBC from zero, the last text block keyed.
fn chained<C: BlockCipher>(cipher: &C, text: &[u8]) -> Block
    ensures { result ≡ tag_of (C.BlockCipher.enc cipher.now) text.now }
{
    let zero = Block { left: 0, right: 0 };
    let k1 = twice(cipher.encipher(zero));
    let (front, last) = text.split_at(text.len().saturating_sub(1) / 8 * 8);
    let (blocks, _) = front.as_chunks::<8>();
    let mut chain = zero;
    for bytes in blocks {
        chain = cipher.encipher(Block::from(*bytes) ^ chain);
    }
    cipher.encipher(keyed_last(last, k1) ^ chain)
}

/// The tag of a text, or 17 where it is too long.
pub fn tag<C: BlockCipher>(cipher: &C, text: &[u8]) -> Result<Block, Refusal>
    ensures { Tags (C.BlockCipher.enc cipher.now) text.now result }
{
    if text.len() > LONGEST {
        return Err(Refusal::TextLength);
    }
    Ok(chained(cipher, text))
}
