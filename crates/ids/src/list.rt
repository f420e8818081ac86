ghost use Rattle.std.specs.Prelude.{◌≡◌, ◌≤◌, length, take, All};
ghost use Rattle.std.proofs.Props.{props};
ghost use Rattle.ids.specs.Size.{Sized};

use crate::faults::Fault;
use crate::guard::Guard;
use crate::iter::Iter;
use arrayvec::ArrayVec;

// The most ids that a list holds.
pub const MOST_IDS: u16 = 64;

// The most bytes that an id has.
pub const MOST_BYTES: usize = 64;

const ROOM: usize = MOST_IDS as usize;

pub(crate) type Id = ArrayVec<u8, MOST_BYTES>;

// A list of at most 64 ids of 1 to 64 bytes, with the room for all of them. What stands in the room behind the last id counts for
// nothing, so taking ids off the end lowers the count alone. These facts are ghost fields and not the invariant of a Model, so
// that callers know them of every list.
#[derive(Drop)]
pub struct Ids {
    room: [Id; ROOM],
    count: u8,
    closed: bool,
    ghost whole: { length room ≡ 64 },
    pub ghost within: { count ≤ 64 },
    pub ghost sized: { All (λ id. Sized id.items) (take count room) } by { Prim.hlevel props },
}

impl Ids {
    ghost use Rattle.std.specs.Prelude.{◌≡◌, ◌-◌, ◌<◌, true, false, [], ◌∷◌, ◌++◌, take, IfSome, OnErr};
    ghost use Rattle.ids.specs.Value.{ids_of, is_open};
    ghost use Rattle.ids.specs.Add.{added, joined, added_all, joined_all};
    ghost use Rattle.ids.specs.Place.{IdAt, FirstPlace};

    // An open list with no ids.
    pub fn new() -> Ids
        ensures ids { ids_of result ≡ [] }
        ensures state { is_open result ≡ true }
    {
        Ids {
            room: Default::default(),
            count: 0,
            closed: false,
        }
    }

    // How many ids there are.
    pub fn len(&self) -> u16
        ensures count { result ≡ length (ids_of self.now) }
        ensures most { result ≤ 64 }
    {
        self.count as u16
    }

    // Does the list take more ids?
    pub fn is_open(&self) -> bool
        ensures { result ≡ is_open self.now }
    {
        !self.closed
    }

    // From now on the list takes no more ids.
    pub fn close(&mut self)
        ensures ids { ids_of self.new ≡ ids_of self.old }
        ensures state { is_open self.new ≡ false }
    {
        self.closed = true;
    }

    // The ids in their order.
    pub fn iter(&self) -> Iter<'_>
        ensures { result ≡ ids_of self.now }
    {
        Iter {
            ids: self.as_slice(),
        }
    }

    // The id at a place, from 0, or none past the last.
    pub fn get(&self, place: u16) -> Option<&[u8]>
        ensures id { IdAt (ids_of self.now) place result }
        ensures size { IfSome result (λ id. Sized id.now) }
    {
        let id = self.as_slice().get(usize::from(place))?;
        Some(id.as_slice())
    }

    // The first place of an id, or none where the list does not have it.
    pub fn place_of(&self, id: &[u8]) -> Option<u16>
        ensures { FirstPlace (ids_of self.now) id.now result }
    {
        let place = self.iter().position(|other| other == id)?;
        Some(place as u16)
    }

    // Adds an id at the end, or refuses it and leaves the list exactly as it was. An id may stand in the list several times.
    pub fn add(&mut self, id: &[u8]) -> Result<(), Fault>
        ensures answer { result ≡ added (ids_of self.old) (is_open self.old) id.now }
        ensures ids { ids_of self.new ≡ joined result (ids_of self.old) id.now }
        ensures state { is_open self.new ≡ is_open self.old }
        ensures refused { OnErr result (self.new ≡ self.old) }
    {
        if id.is_empty() || id.len() > MOST_BYTES {
            return Err(Fault::Length);
        }
        if self.closed {
            return Err(Fault::Closed);
        }
        if self.len() >= MOST_IDS {
            return Err(Fault::Full);
        }
        let mut last = Id::new();
        last.try_extend_from_slice(id).map_err(|_| Fault::Length)?;
        self.push(last);
        Ok(())
    }

    // Adds all ids of another list in their order, or none: at the first refusal the list is as it was.
    pub fn add_all(&mut self, other: &Ids) -> Result<(), Fault>
        ensures answer { result ≡ added_all (ids_of self.old) (is_open self.old) (ids_of other.now) }
        ensures ids { ids_of self.new ≡ joined_all result (ids_of self.old) (ids_of other.now) }
        ensures state { is_open self.new ≡ is_open self.old }
    {
        let mut guard = Guard::new(self);
        for id in other.iter() {
            guard.add(id)?;
        }
        guard.confirm();
        Ok(())
    }

    // Takes the last ids off, so many as `last` says, or all where there are fewer.
    pub(crate) fn cut(&mut self, last: u8)
        ensures ids { ids_of self.new ≡ take (length (ids_of self.old) - last) (ids_of self.old) }
        ensures state { is_open self.new ≡ is_open self.old }
    {
        self.count = self.count.saturating_sub(last);
    }

    // The ids, each as it stands in the room.
    fn as_slice(&self) -> &[Id]
        ensures { result.now ≡ take self.now.count self.now.room }
    {
        &self.room[..usize::from(self.count)]
    }

    // Writes an id behind the last one.
    fn push(&mut self, id: Id)
        requires room { length (ids_of self.old) < 64 }
        requires size { Sized id.items }
        ensures ids { ids_of self.new ≡ ids_of self.old ++ id.items ∷ [] }
        ensures state { is_open self.new ≡ is_open self.old }
    {
        let place = usize::from(self.count);
        self.room[place] = id;
        self.count += 1;
    }
}
