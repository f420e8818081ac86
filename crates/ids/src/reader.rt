ghost use Rattle.std.specs.Prelude.{◌≡◌, ◌+◌, true, length, Ok as Accepted, Err as Refused, MatchResult};
ghost use Rattle.ids.specs.Value.{ids_of, is_open};
ghost use Rattle.ids.specs.Add.{added, joined};
ghost use Rattle.ids.specs.Lines.{at_line, ids_in};
ghost use Rattle.ids.specs.File.{IsFile, Only, NoFile, WrongAt};

use crate::faults::ReadFault;
use crate::list::Ids;

// The byte that ends a line.
const LINE_END: u8 = 0x0a;

// Reads a file of ids, one a line, into an open list.
pub fn read(text: &[u8]) -> Result<Ids, ReadFault>
    ensures value { MatchResult result (λ s. (ids_in text.now ≡ Accepted (ids_of s)) × (is_open s ≡ true)) (λ e. ids_in text.now ≡ Refused e) }
    ensures law { MatchResult result (λ s. IsFile text.now (ids_of s) × Only text.now (ids_of s)) (λ e. NoFile text.now × WrongAt text.now e) }
{
    let mut ids = Ids::new();
    for line in text.split_inclusive(|byte| *byte == LINE_END) {
        add_line(&mut ids, line.strip_suffix(&[LINE_END]).unwrap_or(line))?;
    }
    Ok(ids)
}

// Adds the id of the next line.
fn add_line(ids: &mut Ids, line: &[u8]) -> Result<(), ReadFault>
    ensures answer { result ≡ at_line (length (ids_of ids.old) + 1) (added (ids_of ids.old) (is_open ids.old) line.now) }
    ensures ids { ids_of ids.new ≡ joined (added (ids_of ids.old) (is_open ids.old) line.now) (ids_of ids.old) line.now }
    ensures state { is_open ids.new ≡ is_open ids.old }
{
    let number = ids.len() + 1;
    ids.add(line).map_err(|fault| ReadFault {
        line: number,
        fault,
    })
}
