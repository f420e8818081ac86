ghost use Rattle.std.specs.Iterator.{YieldsFirstRef, item_count};

use crate::list::Id;
use std::marker::Model;

// The ids of a list in their order, seen as those that are left.
#[derive(Drop)]
pub struct Iter<'a> {
    pub(crate) ids: &'a [Id],
}

impl<'a> Model for Iter<'a> {
    ghost use Rattle.std.specs.Prelude.{ℕ, List, map};

    ghost Value = { List (List ℕ) };

    ghost view = { λ it. map (λ id. id.items) it.ids.now };
}

impl<'a> Iterator for Iter<'a> {
    type Item = &'a [u8];

    ghost next_gives = { YieldsFirstRef (λ rest. rest) };

    ghost remaining = { item_count (λ rest. rest) };

    fn next(&mut self) -> Option<&'a [u8]> {
        let (first, rest) = self.ids.split_first()?;
        self.ids = rest;
        Some(first.as_slice())
    }
}
