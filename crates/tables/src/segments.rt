ghost use Rattle.std.specs.Prelude.{◌≡◌, ◌/◌, length};
ghost use Rattle.std.specs.Iterator.{YieldsFirst, item_count};
ghost use Rattle.tables.specs.Answer.{number_at};
ghost use Rattle.tables.specs.Question.{numbers_in};

// The numbers of a table's segments, four bytes each.
#[derive(Clone, Copy)]
pub struct SegmentIds<'a> {
    pub bytes: &'a [u8],
}

impl<'a> SegmentIds<'a> {
    // How many segments there are.
    pub fn len(&self) -> usize
        ensures { result ≡ length self.now.bytes.now / 4 }
    {
        self.bytes.len() / 4
    }

    // The k-th, or none past the last.
    pub fn get(&self, k: usize) -> Option<u32>
        ensures { result ≡ number_at self.now.bytes.now k }
    {
        let (numbers, _) = self.bytes.as_chunks::<4>();
        let number = numbers.get(k)?;
        Some(u32::from_le_bytes(*number))
    }

    // All of them, in order.
    pub fn iter(&self) -> SegmentIdsIter<'a>
        ensures { result.bytes.now ≡ self.now.bytes.now }
    {
        SegmentIdsIter { bytes: self.bytes }
    }
}

// The numbers of a table's segments that are left.
#[derive(Clone, Copy)]
pub struct SegmentIdsIter<'a> {
    pub bytes: &'a [u8],
}

impl Iterator for SegmentIdsIter<'_> {
    type Item = u32;

    ghost next_gives = { YieldsFirst (λ s. numbers_in s.bytes.now) };

    ghost remaining = { item_count (λ s. numbers_in s.bytes.now) };

    fn next(&mut self) -> Option<u32> {
        let (first, others) = self.bytes.split_first_chunk::<4>()?;
        self.bytes = others;
        Some(u32::from_le_bytes(*first))
    }
}
