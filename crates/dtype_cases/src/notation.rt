// How the words of a case write bytes, and how an answer writes what was found.
ghost use Rattle.std.specs.Prelude.{◌≡◌};
ghost use Rattle.dtype_cases.specs.Notation.{byte_of};

use replay::{CaseError, Part, repeat_from};
use std::alloc::Global;
use std::fmt;
use std::fmt::Display;

// The bytes that a word writes in parts between `|`. A part may end with how often it is repeated, as in `a*64`.
pub fn bytes_of(heap: Global, word: &str) -> Result<Vec<u8>, CaseError> {
    let mut bytes = Vec::new(heap);
    for part in word.split('|') {
        let part = Part::try_from(part)?;
        if part.times > 0 {
            let from = bytes.len();
            for byte in part.letters.bytes().map(byte_of) {
                bytes.push(byte)?;
            }
            repeat_from(&mut bytes, from, part.times)?;
        }
    }
    Ok(bytes)
}

// The byte that a letter writes: some letters stand for bytes that cannot be written in a word, or could hardly be read there,
// and any other is written as itself.
fn byte_of(letter: u8) -> u8
    ensures { result ≡ byte_of letter }
{
    match letter {
        b',' => 0x09,
        b';' => 0x0A,
        b'^' => 0x0D,
        b'_' => 0x20,
        b'!' => 0x00,
        b'?' => 0x80,
        b'~' => 0xFF,
        _ => letter,
    }
}

// What was found, written as `-` where nothing was.
#[derive(Drop)]
pub struct Found<T>(pub Option<T>);

impl<T: Display> Display for Found<T> {
    fn fmt<W: fmt::Write>(&self, f: &mut fmt::Formatter<W>) -> fmt::Result {
        match &self.0 {
            Some(found) => write!(f, "{found}"),
            None => f.write_str("-"),
        }
    }
}

// Bytes, written in quotes.
#[derive(Clone, Copy)]
pub struct Quoted<'a>(pub &'a [u8]);

impl Display for Quoted<'_> {
    fn fmt<W: fmt::Write>(&self, f: &mut fmt::Formatter<W>) -> fmt::Result {
        write!(f, "\"{}\"", self.0.escape_ascii())
    }
}
