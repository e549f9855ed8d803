//! Blocks of 64 bits.
ghost use Rattle.std.specs.Prelude.{◌≡◌};
ghost use Rattle.cipher.specs.Blocks.{xor};
ghost use Rattle.cipher.specs.Bytes.{block_of, bytes_of};

use std::ops::BitXor;

/// Two words of 32 bits, the left one first; as bytes big-endian.
#[derive(Clone, Copy, PartialEq, Eq, Debug)]
pub struct Block {
    pub left: u32,
    pub right: u32,
}

/// The block that eight bytes hold, the first byte highest; its bytes are those eight again.
impl From<[u8; 8]> for Block {
    ghost from_gives = { λ bytes block. (block ≡ block_of bytes) × (bytes_of block ≡ bytes) };

    fn from(bytes: [u8; 8]) -> Block {
        held_by(bytes)
    }
}

/// A block's eight bytes, which hold the block again.
impl From<Block> for [u8; 8] {
    ghost from_gives = { λ block bytes. (bytes ≡ bytes_of block) × (block_of bytes ≡ block) };

    fn from(block: Block) -> [u8; 8] {
        // one swap of eight bytes, where two of four would be slower
        (u64::from(block.left) * 0x1_0000_0000 + u64::from(block.right)).to_be_bytes()
    }
}

/// Two blocks, bit by bit.
impl BitXor for Block {
    type Output = Block;

    ghost bitxor_gives = { λ a b c. c ≡ xor a b };

    fn bitxor(self, other: Block) -> Block {
        Block {
            left: self.left ^ other.left,
            right: self.right ^ other.right,
        }
    }
}

/// The block that eight bytes hold.
fn held_by(bytes: [u8; 8]) -> Block
    ensures { result ≡ block_of bytes }
{
    let [a, b, c, d, e, f, g, h] = bytes;
    Block {
        left: u32::from_be_bytes([a, b, c, d]),
        right: u32::from_be_bytes([e, f, g, h]),
    }
}
