// The names of the files to list.
ghost use Rattle.std.specs.Option.{MatchOption};
ghost use Rattle.printing.specs.Naming.{Named, Unnamed};

// A file of tables, and the files of the dtype and the ids that belong to it.
#[derive(Clone, Copy, Debug, PartialEq, Eq)]
pub struct Names<'a> {
    pub tables: &'a str,
    pub dtype: &'a str,
    pub ids: &'a str,
}

// What is listed together.
#[derive(Clone, Copy, Debug, PartialEq, Eq)]
pub enum Sources<'a> {
    // A file of tables.
    Alone(&'a str),
    Three(Names<'a>),
}

// What a line names: a file of tables, or three files with a tab between two names.
pub fn sources_in(line: &str) -> Option<Sources<'_>>
    ensures { MatchOption result (Unnamed line.now) (Named line.now) }
{
    let Some((tables, rest)) = line.split_once('\t') else {
        return Some(Sources::Alone(line));
    };
    let (dtype, ids) = rest.split_once('\t')?;
    if ids.contains('\t') {
        return None;
    }
    Some(Sources::Three(Names { tables, dtype, ids }))
}
