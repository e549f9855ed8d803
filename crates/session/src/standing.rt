//! What now stands, name by name.
ghost use Rattle.std.specs.Iterator.{YieldsFirstBy, item_count};
ghost use Rattle.session.specs.Views.{to_come};

use crate::entry::Entry;
use chosen::Kind;

// an iterator of its own: the type of a `map` over the entries has no name to hand out, and a box is no plainer
/// Each name that was given, and the kind of cipher that it stands for, in the order in which they were given.
#[derive(Drop)]
pub struct Standing<'a> {
    pub(crate) entries: &'a [Entry],
}

impl<'a> Iterator for Standing<'a> {
    type Item = (&'a [u8], Kind);

    ghost next_gives = { YieldsFirstBy (λ x. (x.0.now, x.1)) to_come };

    ghost remaining = { item_count to_come };

    fn next(&mut self) -> Option<(&'a [u8], Kind)> {
        let (entry, rest) = self.entries.split_first()?;
        self.entries = rest;
        Some((entry.name.as_slice(), Kind::from(&entry.cipher)))
    }
}
