// A case, as the words of a line write it.
use crate::notation::bytes_of;
use replay::{CaseError, next_word};
use std::alloc::Global;
use std::str::{FromStr, SplitWhitespace};

// What is asked.
#[derive(Clone, Copy)]
pub enum Question {
    // How a dtype text is read.
    Text,
    // What a word stands for.
    Word,
    // Whether two dtypes in use are equal.
    Equals,
    // How a file of ids is read, and what steps do to the list.
    Ids,
}

// A case: its name, what is asked, the bytes that it is asked of, and further words.
#[derive(Drop)]
pub struct Case<'a> {
    pub name: &'a str,
    pub question: Question,
    pub bytes: Vec<u8>,
    pub words: SplitWhitespace<'a>,
}

impl FromStr for Question {
    type Err = CaseError;

    fn from_str(word: &str) -> Result<Question, CaseError> {
        match word {
            "text" => Ok(Question::Text),
            "word" => Ok(Question::Word),
            "equals" => Ok(Question::Equals),
            "ids" => Ok(Question::Ids),
            _ => Err(CaseError::NotACase),
        }
    }
}

impl<'a> Case<'a> {
    // The case that a line writes.
    pub fn read(heap: Global, line: &'a str) -> Result<Case<'a>, CaseError> {
        let mut words = line.split_whitespace();
        let name = next_word(&mut words)?;
        let question = next_word(&mut words)?.parse()?;
        let bytes = bytes_of(heap, next_word(&mut words)?)?;
        Ok(Case {
            name,
            question,
            bytes,
            words,
        })
    }
}
