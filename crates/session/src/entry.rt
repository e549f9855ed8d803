//! A cipher under its name.
use chosen::Chosen;

/// A name, any word, and the cipher that it stands for.
#[derive(Drop)]
pub(crate) struct Entry {
    pub(crate) name: Vec<u8>,
    pub(crate) cipher: Chosen,
}
