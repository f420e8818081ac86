ghost use Rattle.std.specs.Prelude.{◌≡◌, ◌+◌, ◌*◌, ◌%◌, ◌^◌, ◌<◌, ◌≤◌, take, drop, length, IfOk, Ok as Answered, Err as Refused, MatchResult};

use crate::faults::Fault;
use crate::records::Part;

// The bytes of a file, of which there are at most 1,048,576.
#[derive(Clone, Copy)]
pub struct Bytes<'a> {
    pub bytes: &'a [u8],
    ghost short: { length bytes.now ≤ 2 ^ 20 },
}

// Where a vtable stands, and its size in bytes. It is no slice, since the definition of reading speaks of its place.
#[derive(Clone, Copy)]
pub struct Vtable {
    pub place: usize,
    pub size: usize,
}

// The fields of a table, each with the position of its entry in a vtable.
#[derive(Clone, Copy)]
pub enum Field {
    Encoding = 4,
    Rows = 6,
    Metadata = 8,
    Children = 10,
    Segments = 12,
}

// A table as it stands in the bytes: its place, and its vtable, which lies inside.
#[derive(Clone, Copy)]
pub struct RawTable<'a> {
    pub bytes: Bytes<'a>,
    pub place: usize,
    pub vtable: Vtable,
    ghost within: { place ≤ length bytes.bytes.now },
    ghost inside: { vtable.place + vtable.size ≤ length bytes.bytes.now },
    ghost even: { vtable.size % 2 ≡ 0 },
}

impl<'a> Bytes<'a> {
    ghost use Rattle.tables.specs.Read.{little, number, forward, vtable};

    // N bytes, from a place on.
    #[inline(always)]
    fn array<const N: usize>(&self, place: usize) -> [u8; N]
        requires { place + N ≤ length self.now.bytes.now }
        ensures { result ≡ take N (drop place self.now.bytes.now) }
    {
        *self.bytes[place..place + N].first_chunk().unwrap()
    }

    // The bytes of a number of N bytes at a place.
    #[inline(always)]
    fn number<const N: usize>(&self, place: usize) -> Result<[u8; N], Fault>
        requires { 0 < N }
        ensures value { MatchResult result (λ n. number N self.now.bytes.now place ≡ Answered (little N n 0)) (λ e. number N self.now.bytes.now place ≡ Refused e) }
        ensures inside { IfOk result (λ _. place + N ≤ length self.now.bytes.now) }
    {
        if place % N != 0 {
            return Err(Fault::Misaligned);
        }
        if self.bytes.len() < place.saturating_add(N) {
            return Err(Fault::PastEnd);
        }
        Ok(self.array(place))
    }

    // Where the forward offset at a place leads.
    #[inline(always)]
    pub fn forward(&self, place: usize) -> Result<usize, Fault>
        ensures { result ≡ forward self.now.bytes.now place }
    {
        let offset = u32::from_le_bytes(self.number(place)?);
        if offset == 0 {
            return Err(Fault::Malformed);
        }
        Ok(place + offset as usize)
    }

    // The vtable of the table at a place: the table begins with a signed offset, which is taken away from its place.
    #[inline(always)]
    fn vtable(&self, table: usize) -> Result<Vtable, Fault>
        ensures value { result ≡ vtable self.now.bytes.now table }
        ensures inside { IfOk result (λ v. (v.place + v.size ≤ length self.now.bytes.now) × (v.size % 2 ≡ 0) × (table ≤ length self.now.bytes.now)) }
    {
        let offset = u32::from_le_bytes(self.number(table)?) as usize;
        let place = if offset >= 0x8000_0000 {
            table + (0x1_0000_0000 - offset)
        } else if offset <= table {
            table - offset
        } else {
            return Err(Fault::PastEnd);
        };
        let size = u16::from_le_bytes(self.number(place)?) as usize;
        if size % 2 != 0 || size < 4 {
            return Err(Fault::Malformed);
        }
        if self.bytes.len() < place + size {
            return Err(Fault::PastEnd);
        }
        Ok(Vtable { place, size })
    }
}

impl<'a> Bytes<'a> {
    ghost use Rattle.tables.specs.Read.{vtable};

    // The table at a place.
    #[inline(always)]
    pub fn table(&self, place: usize) -> Result<RawTable<'a>, Fault>
        ensures { MatchResult result (λ t. (vtable self.now.bytes.now place ≡ Answered t.vtable) × (t.bytes.bytes.now ≡ self.now.bytes.now) × (t.place ≡ place)) (λ e. vtable self.now.bytes.now place ≡ Refused e) }
    {
        let vtable = self.vtable(place)?;
        Ok(RawTable {
            bytes: *self,
            place,
            vtable,
        })
    }
}

impl RawTable<'_> {
    ghost use Rattle.tables.specs.Read.{little, entry, scalar, vector};
    ghost use Rattle.tables.specs.Step.{position};

    // How far into the table a field stands. It is no Option: as in a vtable itself, 0 says that the field is absent, and the
    // definition of an entry has that number.
    #[inline(always)]
    fn entry(&self, field: Field) -> usize
        ensures value { result ≡ entry self.now.bytes.bytes.now self.now.vtable (position field) }
        ensures bound { result < 2 ^ 16 }
    {
        let at = field as usize;
        if at >= self.vtable.size {
            return 0;
        }
        u16::from_le_bytes(self.bytes.array(self.vtable.place + at)) as usize
    }

    // The bytes of a number of N bytes in a field: 0 where it is absent.
    #[inline(always)]
    pub(crate) fn scalar<const N: usize>(&self, field: Field) -> Result<[u8; N], Fault>
        requires { 0 < N }
        ensures { MatchResult result (λ n. scalar N self.now.bytes.bytes.now self.now.place (entry self.now.bytes.bytes.now self.now.vtable (position field)) ≡ Answered (little N n 0)) (λ e. scalar N self.now.bytes.bytes.now self.now.place (entry self.now.bytes.bytes.now self.now.vtable (position field)) ≡ Refused e) }
    {
        match self.entry(field) {
            0 => Ok([0; N]),
            entry => self.bytes.number(self.place + entry),
        }
    }

    // The elements of a vector in a field, `width` bytes each.
    #[inline(always)]
    pub fn vector(&self, field: Field, width: u8) -> Result<Part, Fault>
        ensures value { result ≡ vector width self.now.bytes.bytes.now self.now.place (entry self.now.bytes.bytes.now self.now.vtable (position field)) }
        ensures inside { IfOk result (λ p. p.from + p.count * width ≤ length self.now.bytes.bytes.now) }
    {
        let entry = self.entry(field);
        if entry == 0 {
            return Ok(Part { from: 0, count: 0 });
        }
        let place = self.bytes.forward(self.place + entry)?;
        let count = u32::from_le_bytes(self.bytes.number(place)?);
        let from = place + 4;
        if self.bytes.bytes.len() < from + count as usize * width as usize {
            return Err(Fault::PastEnd);
        }
        Ok(Part {
            from: from as u32,
            count,
        })
    }
}
