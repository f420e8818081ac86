ghost use Rattle.std.specs.Prelude.{◌≡◌, ◌≤◌, length};
ghost use Rattle.ids.specs.Value.{ids_of, is_open};
ghost use Rattle.ids.specs.Add.{added as answer_of, joined};
ghost use Rattle.ids.specs.Place.{FirstPlace};
ghost use Rattle.ids.specs.Guard.{held, before, open_through};

use crate::faults::Fault;
use crate::list::Ids;

// Lets ids be added to a list for a trial. Dropped, it takes the ids that were added through it off the end again, so that the
// list is as it was when the guard was made. Confirmed, it leaves them there.
pub struct Guard<'a> {
    ids: &'a mut Ids,
    // How many ids were added.
    added: u8,
}

impl Drop for Guard<'_> {
    fn drop(self)
        ensures ids { ids_of self.exit.0.now ≡ before self.entry }
        ensures state { is_open self.exit.0.now ≡ open_through self.entry }
    {
        let Guard { ids, added } = self;
        ids.cut(added);
    }
}

impl<'a> Guard<'a> {
    // A guard over the list as it stands.
    pub fn new(ids: &'a mut Ids) -> Guard<'a>
        ensures ids { held result ≡ ids_of ids.old }
        ensures before { before result ≡ ids_of ids.old }
        ensures state { open_through result ≡ is_open ids.old }
        ensures named { result.ids.ghost_name ≡ ids.entry.ghost_name }
    {
        Guard { ids, added: 0 }
    }

    // The ids that were added stay.
    pub fn confirm(self)
        ensures ids { ids_of self.exit.0.now ≡ held self.entry }
        ensures state { is_open self.exit.0.now ≡ open_through self.entry }
    {
        let Guard { ids: _, added: _ } = self;
    }

    // Adds an id as the list itself does.
    pub fn add(&mut self, id: &[u8]) -> Result<(), Fault>
        ensures answer { result ≡ answer_of (held self.old) (open_through self.old) id.now }
        ensures ids { held self.new ≡ joined result (held self.old) id.now }
        ensures before { before self.new ≡ before self.old }
        ensures state { open_through self.new ≡ open_through self.old }
        ensures named { self.new.ids.ghost_name ≡ self.old.ids.ghost_name }
    {
        self.ids.add(id)?;
        self.added = self.added.saturating_add(1);
        Ok(())
    }

    // How many ids there are, with those that were added.
    pub fn len(&self) -> u16
        ensures count { result ≡ length (held self.now) }
        ensures most { result ≤ 64 }
    {
        self.ids.len()
    }

    // The first place of an id, also among those that were added, or none where the list does not have it.
    pub fn place_of(&self, id: &[u8]) -> Option<u16>
        ensures { FirstPlace (held self.now) id.now result }
    {
        self.ids.place_of(id)
    }
}
