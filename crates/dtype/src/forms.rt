// One line of a dtype text.
ghost use Rattle.std.specs.Prelude.{◌≡◌, ◌<◌, length, IfSome, None as Nothing, MatchOption};
ghost use Rattle.dtype.specs.Row.{said_by};
ghost use Rattle.dtype.specs.Form.{place, depth_of, fields_of, form_of, OneLine};
ghost use Rattle.dtype.specs.Step.{Cut};

use crate::lines::{Head, Line};
use kinds::{Kind, Nullability};

// The byte between two fields of a line.
const TAB: u8 = 0x09;

// The byte that ends a line.
pub(crate) const NEWLINE: u8 = 0x0A;

// The depth that stands for every depth past 15. It is a number like the others and no case of its own, since such depths are
// only compared, and it compares with each depth up to 15 as those past 15 do.
const TOO_DEEP: u8 = 16;

// The first place of a byte.
fn place_of(bytes: &[u8], byte: u8) -> Option<usize>
    ensures value { result ≡ place byte bytes.now }
    ensures bound { IfSome result (λ n. n < length bytes.now) }
{
    bytes.iter().position(|b| *b == byte)
}

// The bytes before the first one that is `byte`, and those after it.
fn split_once(bytes: &[u8], byte: u8) -> Option<(&[u8], &[u8])>
    ensures { MatchOption result (place byte bytes.now ≡ Nothing) (λ p. Cut byte bytes.now p.0.now p.1.now) }
{
    let end = place_of(bytes, byte)?;
    Some((&bytes[..end], &bytes[end + 1..]))
}

// The depth that decimal digits write, none where they are no number without leading zeros.
fn depth_of(digits: &[u8]) -> Option<u8>
    ensures { result ≡ depth_of digits.now }
{
    if let [] | [b'0', _, ..] = digits {
        return None;
    }
    let mut depth = 0;
    for digit in digits {
        if !digit.is_ascii_digit() {
            return None;
        }
        depth = TOO_DEEP.min(10 * depth + (*digit - b'0'));
    }
    Some(depth)
}

impl<'a> Line<'a> {
    // What a line says, by its bytes with the 0A that ends it; none where it is not in form. A 0A stands in a line at its end only, so
    // it is looked for there alone.
    pub(crate) fn read(bytes: &'a [u8]) -> Option<Line<'a>>
        ensures { OneLine bytes.now → said_by result ≡ form_of bytes.now }
    {
        let (end, fields) = bytes.split_last()?;
        if *end != NEWLINE {
            return None;
        }
        Line::of_fields(fields)
    }

    // What the bytes of a line without its 0A say: four fields with a tab between two.
    fn of_fields(fields: &'a [u8]) -> Option<Line<'a>>
        ensures { said_by result ≡ fields_of fields.now }
    {
        let (digits, rest) = split_once(fields, TAB)?;
        let depth = depth_of(digits)?;
        let (word, rest) = split_once(rest, TAB)?;
        let kind = Kind::try_from(word).ok()?;
        let (word, name) = split_once(rest, TAB)?;
        let nullability = Nullability::try_from(word).ok()?;
        if place_of(name, TAB).is_some() {
            return None;
        }
        let head = Head { kind, nullability };
        Some(Line { depth, head, name })
    }
}
