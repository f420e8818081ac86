use tables::{Missing, Tables};

// The number of a question that finds nothing. It stands here as the number that is documented, since the number is what is tested.
const NOTHING: u32 = 22;

// Whether the records of `count` tables are as they should be, and questions for the children of each table and for a table past
// the last are answered rightly.
pub fn all_is_right(tables: &Tables<'_, '_, u32>, count: u32) -> bool {
    (0..count).all(|number| children_are_right(tables, number, count))
        && records_are_right(tables, count as usize)
        && finds_nothing(tables.table_at(count))
        && finds_nothing(tables.metadata(count))
        && finds_nothing(tables.segments(count))
        && finds_nothing(tables.child(count, 0))
}

// Whether each of the first `count` records holds a table without a mark, and each later one is empty.
fn records_are_right(tables: &Tables<'_, '_, u32>, count: usize) -> bool {
    let mut records = tables.records.iter().enumerate();
    records.all(|(number, record)| match record {
        Some(record) => number < count && record.mark.is_none(),
        None => number >= count,
    })
}

// Whether each child of a table is found, and none past the last. Child k is the k-th table, after the root, that has this one as
// its parent.
fn children_are_right(tables: &Tables<'_, '_, u32>, number: u32, count: u32) -> bool {
    let parent_of = |below: u32| tables.table_at(below).map(|table| table.parent);
    let mut children = (1..count).filter(|below| parent_of(*below) == Ok(number));
    let past_the_last = children.try_fold(0u32, |k, below| {
        (tables.child(number, k) == Ok(below)).then_some(k.saturating_add(1))
    });
    past_the_last.is_some_and(|k| finds_nothing(tables.child(number, k)))
}

// Whether a question found nothing, and says so by its number.
fn finds_nothing<T: Drop>(answer: Result<T, Missing>) -> bool {
    answer.is_err_and(|missing| missing.number() == NOTHING)
}
