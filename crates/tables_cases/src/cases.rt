// A case, as the words of a line write it.
ghost use Rattle.std.specs.Prelude.{◌<◌, IfOk};

use replay::{CaseError, Part, next_word, repeat_from};
use std::alloc::Global;
use tables::Limits;

// A case: what is verified, and what is expected of it.
#[derive(Drop)]
pub struct Case<'a> {
    pub name: &'a str,
    pub limits: Limits,
    // How many records there are.
    pub records: usize,
    pub expected: &'a str,
    pub bytes: Vec<u8>,
}

impl<'a> Case<'a> {
    // The case that a line writes.
    pub fn read(heap: Global, line: &'a str) -> Result<Case<'a>, CaseError> {
        let mut words = line.split_whitespace();
        Ok(Case {
            name: next_word(&mut words)?,
            limits: Limits {
                levels: next_word(&mut words)?.parse()?,
                tables: next_word(&mut words)?.parse()?,
            },
            records: next_word(&mut words)?.parse::<u32>()? as usize,
            expected: next_word(&mut words)?,
            bytes: bytes_of(heap, next_word(&mut words)?)?,
        })
    }
}

// The bytes of a word, which has parts between dots. A part is hex, and may end with how often it is repeated, as in `00*16`:
// letters that are not to stand are not read.
fn bytes_of(heap: Global, word: &str) -> Result<Vec<u8>, CaseError> {
    let mut bytes = Vec::new(heap);
    for part in word.split('.') {
        let part = Part::try_from(part)?;
        if part.times > 0 {
            let from = bytes.len();
            add_hex(&mut bytes, part.letters)?;
            repeat_from(&mut bytes, from, part.times)?;
        }
    }
    Ok(bytes)
}

// Adds the bytes of letters that are two hex digits in lower case for each.
fn add_hex(bytes: &mut Vec<u8>, letters: &str) -> Result<(), CaseError> {
    for digits in letters.as_bytes().chunks(2) {
        bytes.push(hex_byte(digits)?)?;
    }
    Ok(())
}

// The byte that two hex digits in lower case write.
fn hex_byte(digits: &[u8]) -> Result<u8, CaseError> {
    match digits {
        [high, low] => Ok(hex_digit(*high)? * 16 + hex_digit(*low)?),
        _ => Err(CaseError::NotACase),
    }
}

// The value of a hex digit in lower case.
fn hex_digit(digit: u8) -> Result<u8, CaseError>
    ensures { IfOk result (λ value. value < 16) }
{
    match digit {
        b'0'..=b'9' => Ok(digit - b'0'),
        b'a'..=b'f' => Ok(digit - b'a' + 10),
        _ => Err(CaseError::NotACase),
    }
}
