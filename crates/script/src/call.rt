//! Calls, as a line says them.
use cipher::block::Block;

/// What a cipher is to be made as. A triple is made of three earlier ciphers, by their names.
#[derive(Clone, Copy, PartialEq, Eq, Debug)]
pub enum Make<'a> {
    Blowfish,
    Xtea,
    Triple(&'a [u8], &'a [u8], &'a [u8]),
}

/// What is to be enciphered or deciphered: one block, or a text by a mode, which goes by its name, from a starting block.
#[derive(Drop)]
pub enum Work<'a> {
    Block(Block),
    Text(&'a [u8], Block, Vec<u8>),
}

/// A call: a verb with what it is about. A name is a word of the line.
#[derive(Drop)]
pub enum Call<'a> {
    Cipher(&'a [u8], Make<'a>),
    Load(&'a [u8], Vec<u8>),
    Encipher(&'a [u8], Work<'a>),
    Decipher(&'a [u8], Work<'a>),
    Mode(&'a [u8]),
    Tag(&'a [u8], Vec<u8>),
}
