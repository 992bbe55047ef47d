//! What a program is asked for.

ghost use Rattle.std.specs.Prelude.{◌≡◌, ◌↔◌, [], ◌∷◌, IsTrue, List, ℕ, map, string_bytes};
ghost use Rattle.dhcp_tool.specs.Job.{AnswersBytes, Job, is_reading};
ghost use Rattle.dhcp_tool.specs.Words.{AsksForRun, IsAskedFor, IsRequestIn};

use crate::Status;
use dhcp_wire::Bytes;
use std::alloc::Global;

/// What the words of a program ask for: that the scripts of a source are answered, or that a text
/// is printed, for which nothing is read.
pub trait ToolRequest: Drop {
    /// The type of its scripts.
    ghost Script: { Type 0 };

    /// The words ask for it.
    ghost AsksFor: { List (List ℕ) → Self → Type 0 };

    /// What is read and printed for it.
    ghost job: { Self → Job Script };

    /// What the words ask for. None if and only if they ask for nothing that the program does.
    fn of_words(words: &[String]) -> Option<Self>
        ensures { IsRequestIn AsksFor result (map string_bytes words.now) };

    /// Whether a source is read for it.
    fn reads(&self) -> bool
        ensures { result ≡ is_reading (job self.now) };

    /// The text to print for what was read, or the status: `NoScript` or `Invalid` by their causes,
    /// or out of memory. Where nothing is read for it, the input has no bytes. The text may be put
    /// where the input was.
    fn answer(&self, alloc: Global, input: Bytes) -> Result<Bytes, Status>
        requires { IsAskedFor AsksFor self.now }
        ensures { AnswersBytes (job self.now) result input };

    /// Words ask for one thing.
    ghost one_request: { (words : List (List ℕ)) (a b : Self) → AsksFor words a
        → AsksFor words b → a ≡ b };
}

/// Whether the words are `run` alone. Does not allocate.
pub fn is_run(words: &[String]) -> bool
    ensures { IsTrue result ↔ AsksForRun (map string_bytes words.now) }
{
    match words {
        [word] => is_run_word(word.as_str()),
        _ => false,
    }
}

// Whether a word is `run`.
fn is_run_word(word: &str) -> bool
    ensures { IsTrue result ↔ AsksForRun (word.now ∷ []) }
{
    word == "run"
}
