ghost use Rattle.std.specs.Prelude.{◌≡◌, ℕ, List, Some};
ghost use Rattle.kinds.specs.Word.{named, ReadsWord};

use thiserror::Error;

// No value stands for the word.
#[derive(Clone, Copy, Debug, PartialEq, Eq, Error)]
#[error("the word stands for nothing in a dtype text")]
pub struct UnknownWord;

// A type of which each value stands as a word in a dtype text.
pub trait Word: Copy + 'static {
    ghost text: { Self → List ℕ };

    ghost values: { List Self };

    // Every value there is.
    fn all() -> &'static [Self]
        ensures { result.now ≡ values };

    // The word for the value.
    fn word(self) -> &'static str
        ensures { result.now ≡ text self };

    // The word of each value stands for that value. So each value is among them all, and no two have the same word.
    ghost distinct: { (x : Self) → named text (text x) values ≡ Some x };
}

// The value that a word stands for.
pub(crate) fn from_word<W: Word>(word: &[u8]) -> Result<W, UnknownWord>
    ensures { ReadsWord W.text W.values word.now result }
{
    W::all()
        .iter()
        .find(|value| word == value.word().as_bytes())
        .copied()
        .ok_or(UnknownWord)
}
