//! What the words of the command line ask for.

ghost use Rattle.std.specs.Prelude.{◌∷◌, [], codes, map, string_bytes};
ghost use Rattle.dhcp_replay.specs.Request.{IsRequestIn};

use dhcp_stream::number_field;

/// What the program is asked for.
#[derive(Clone, Copy, Debug, PartialEq, Eq)]
pub enum Request {
    /// The text of what is reported of the client of a script.
    Run,
    /// The text in version 2 of a script whose text is in version 1.
    Upgrade,
    /// The summary of a demonstration of so many rounds, from 1 to 2,000.
    Demo(u32),
}

// How many rounds a demonstration has at most.
const MAX_ROUNDS: u64 = 2_000;

/// What the words ask for: `run` alone, `upgrade` alone, or `demo` and a number from 1 to 2,000 in
/// decimal without leading zeros. None if and only if they are none of these. Does not allocate.
pub fn request_of(words: &[String]) -> Option<Request>
    ensures { IsRequestIn result (map string_bytes words.now) }
{
    match words {
        [word] => request_of_one(word.as_str()),
        [word, number] => request_of_two(word.as_str(), number.as_str()),
        _ => None,
    }
}

// What a single word asks for.
fn request_of_one(word: &str) -> Option<Request>
    ensures { IsRequestIn result (word.now ∷ []) }
{
    if word == "run" {
        Some(Request::Run)
    } else if word == "upgrade" {
        Some(Request::Upgrade)
    } else {
        None
    }
}

// What two words ask for.
fn request_of_two(word: &str, number: &str) -> Option<Request>
    ensures { IsRequestIn result (word.now ∷ number.now ∷ []) }
{
    if word == "demo" {
        demo_of(number)
    } else {
        None
    }
}

// The demonstration of so many rounds.
fn demo_of(number: &str) -> Option<Request>
    ensures { IsRequestIn result (codes "demo" ∷ number.now ∷ []) }
{
    let rounds = number_field(number.as_bytes(), MAX_ROUNDS)?;
    if rounds > 0 {
        Some(Request::Demo(rounds as u32))
    } else {
        None
    }
}
