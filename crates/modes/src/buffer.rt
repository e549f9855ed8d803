//! Blocks in a buffer of bytes.
// A place is a number with its bound asked for: a type around a lent buffer and a place would be made anew for each block.
ghost use Rattle.std.specs.Prelude.{◌≡◌, ◌+◌, ◌≤◌, length, drop};
ghost use Rattle.cipher.specs.Bytes.{block_at};
ghost use Rattle.modes.specs.Layout.{with_block, with_blocks, cut};

use cipher::block::Block;

/// The block at a place.
pub(crate) fn read_block(buffer: &[u8], at: usize) -> Block
    requires { at + 8 ≤ length buffer.now }
    ensures { result ≡ block_at buffer.now at }
{
    Block::from([
        buffer[at],
        buffer[at + 1],
        buffer[at + 2],
        buffer[at + 3],
        buffer[at + 4],
        buffer[at + 5],
        buffer[at + 6],
        buffer[at + 7],
    ])
}

/// Writes a block at a place.
pub(crate) fn write_block(buffer: &mut [u8], at: usize, block: Block)
    requires { at + 8 ≤ length buffer.old }
    ensures { buffer.new ≡ with_block buffer.old at block }
{
    let bytes: [u8; 8] = block.into();
    buffer[at..at + 8].copy_from_slice(&bytes);
}

/// The eight blocks from a place on.
pub(crate) fn read_eight(buffer: &[u8], at: usize) -> [Block; 8]
    requires { at + 64 ≤ length buffer.now }
    ensures { result ≡ cut 8 (drop at buffer.now) }
{
    // written out: of a lent slice that a closure reads in `from_fn` a proof does not keep that it stays
    [
        read_block(buffer, at),
        read_block(buffer, at + 8),
        read_block(buffer, at + 16),
        read_block(buffer, at + 24),
        read_block(buffer, at + 32),
        read_block(buffer, at + 40),
        read_block(buffer, at + 48),
        read_block(buffer, at + 56),
    ]
}

/// Writes eight blocks from a place on.
pub(crate) fn write_eight(buffer: &mut [u8], at: usize, blocks: [Block; 8])
    requires { at + 64 ≤ length buffer.old }
    ensures { buffer.new ≡ with_blocks buffer.old at blocks }
{
    // by place: of a buffer that `chunks_exact_mut` lends a proof keeps only the length
    for (k, block) in blocks.iter().enumerate() {
        write_block(buffer, at + 8 * k, *block);
    }
}
