// The parts of a word.
ghost use Rattle.std.specs.Prelude.{◌≡◌, length, take, IfOk, OnOk, OnErr};
ghost use Rattle.std.specs.String.{string_bytes};
ghost use Rattle.replay.specs.Part.{ReadsPart, expanded, repeated_from};

use crate::faults::CaseError;
use std::alloc::{AllocError, Global};

// A part of a word: letters, and how often they are repeated.
#[derive(Clone, Copy)]
pub struct Part<'a> {
    pub letters: &'a str,
    pub times: u32,
}

impl<'a> TryFrom<&'a str> for Part<'a> {
    type Error = CaseError;

    ghost try_from_gives = { λ text r. ReadsPart text.now r };

    // `LETTERS*TIMES` is repeated as often as it says, and letters alone stand once.
    fn try_from(text: &'a str) -> Result<Part<'a>, CaseError> {
        let (letters, digits) = text.split_once('*').unwrap_or((text, "1"));
        let times = digits.parse::<u32>()?;
        Ok(Part { letters, times })
    }
}

// What parts write: the letters of each, as often as it says. Letters that are to stand no times take no room either.
#[tactic(auto, using(crate::proofs::Written::part_written, crate::proofs::Written::part_utf8))]
pub fn expand(heap: Global, parts: &[Part<'_>]) -> Result<String, AllocError>
    ensures { IfOk result (λ text. string_bytes text ≡ expanded parts.now) }
{
    let mut bytes = Vec::new(heap);
    for part in parts {
        if part.times == 0 {
            continue;
        }
        let from = bytes.len();
        bytes.extend_from_slice(part.letters.as_bytes())?;
        repeat_from(&mut bytes, from, part.times)?;
    }
    // The letters of each part are UTF-8, so all bytes are.
    Ok(String::from_utf8(bytes).unwrap())
}

// Makes what stands from a place on stand as often as it says: no times at all, and it is taken away. Where there is no memory,
// what stood still stands, and some of its repeats may follow.
pub fn repeat_from(bytes: &mut Vec<u8>, from: usize, times: u32) -> Result<(), AllocError>
    ensures ok { OnOk result (bytes.new.items ≡ repeated_from from times bytes.old.items) }
    ensures err { OnErr result (take (length bytes.old.items) bytes.new.items ≡ bytes.old.items) }
{
    let end = bytes.len();
    if times == 0 {
        bytes.truncate(from);
    } else if from < end {
        let room = end - from;
        let mut stands = 1;
        // All that stands is repeated at once, and in the end as much of it as is lacking.
        while stands < times {
            let more = stands.min(times - stands);
            bytes.extend_from_within(from..from + room * more as usize)?;
            stands += more;
        }
    }
    Ok(())
}

#[cfg(test)]
mod tests {
    use super::{Part, expand, repeat_from};
    use std::test::Fail;

    #[test]
    fn expands_parts(rt: HostRuntime) -> Result<(), Fail> {
        let parts = [
            Part::try_from("ab*3")?,
            Part::try_from("c")?,
            Part::try_from("d*0")?,
        ];
        let text = expand(rt.alloc(), &parts)?;
        assert_eq!(rt; text.as_str(), "abababc");
        Ok(())
    }

    #[test]
    fn repeats_bytes(rt: HostRuntime) -> Result<(), Fail> {
        let parts = [
            Part::try_from("ab*3")?,
            Part::try_from("c")?,
            Part::try_from("d*0")?,
        ];
        let mut text = Vec::new(rt.alloc());
        for part in parts {
            let from = text.len();
            text.extend_from_slice(part.letters.as_bytes())?;
            repeat_from(&mut text, from, part.times)?;
        }
        assert_eq!(rt; text.as_slice(), b"abababc".as_slice());
        Ok(())
    }
}
