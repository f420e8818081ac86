// The words of a line.
ghost use Rattle.std.specs.Prelude.{◌≡◌, Some, None, MatchResult};
ghost use Rattle.std.specs.Str.Iter.{split_whitespace_steps};
ghost use Rattle.replay.specs.declared.faults.CaseError.TheVariants.{NotACase};

use crate::faults::CaseError;
use std::str::SplitWhitespace;

// The next word of a case. A line that has ended before it is no case.
pub fn next_word<'a>(words: &mut SplitWhitespace<'a>) -> Result<&'a str, CaseError>
    ensures { MatchResult result (λ word. split_whitespace_steps words.old (Some word) words.new)
        (λ e. (e ≡ NotACase) × split_whitespace_steps words.old None words.new) }
{
    words.next().ok_or(CaseError::NotACase)
}
