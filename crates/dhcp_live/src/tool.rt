//! The program: the head of a script, and then a session.

ghost use Rattle.std.specs.Prelude.{◌≡◌, true};
ghost use Rattle.dhcp_tool.specs.Status.{status_number};
ghost use Rattle.dhcp_script.specs.Script4 as v4;
ghost use Rattle.dhcp_script.specs.Script6 as v6;
ghost use Rattle.dhcp_script.specs.declared.script.Script.TheVariants.{V4, V6};
ghost use Rattle.dhcp_live.specs.Tool.{HoldsSessionOf, RunsAfterHead, RunsLive, RunsScript};

use crate::head::{hear_head, read_head};
use crate::session::play_events;
use crate::{begin4, begin6};
use dhcp_dialogue::Dialogue;
use dhcp_script::{Script, Script4, Script6};
use dhcp_tool::{Status, out_of_memory};
use std::alloc::Global;

/// Holds a session, and returns the exit status. It hears the lines of a script up to and with that
/// of `start`, then one line at a time: an event, which it answers before it hears the next line,
/// `words` with further random words, or `end`.
pub fn live_tool<D: Dialogue>(alloc: Global, dialogue: &mut D) -> u8
    ensures { RunsLive D.moves result dialogue.old dialogue.new }
{
    run(alloc, dialogue).into()
}

// The same, with the status itself.
fn run<D: Dialogue>(alloc: Global, dialogue: &mut D) -> Status
    ensures { RunsLive D.moves (status_number result) dialogue.old dialogue.new }
{
    match hear_head(alloc, dialogue) {
        Ok(head) => run_after(alloc, head.as_slice(), dialogue),
        Err(status) => status,
    }
}

// Goes on after a head.
fn run_after<D: Dialogue>(alloc: Global, head: &[u8], dialogue: &mut D) -> Status
    ensures { RunsAfterHead D.moves head.now result dialogue.old dialogue.new }
{
    match read_head(alloc, head) {
        Ok(script) => {
            let status = run_script(alloc, &script, dialogue);
            drop(script);
            status
        }
        Err(status) => status,
    }
}

// Holds the session of the client of a script, if the script is valid.
fn run_script<D: Dialogue>(alloc: Global, script: &Script, dialogue: &mut D) -> Status
    ensures { RunsScript D.moves script.now result dialogue.old dialogue.new }
{
    if !script.is_valid() {
        return Status::Invalid;
    }
    match script {
        Script::V4(script) => run4(alloc, script, dialogue),
        Script::V6(script) => run6(alloc, script, dialogue),
    }
}

// Holds the session of the client of an IPv4 script.
fn run4<D: Dialogue>(alloc: Global, script: &Script4, dialogue: &mut D) -> Status
    requires { v4.is_valid script.now ≡ true }
    ensures { HoldsSessionOf D.moves (V4 script.now) result dialogue.old dialogue.new }
{
    match begin4(alloc, script) {
        Ok(mut client) => play_events(alloc, &mut client, dialogue),
        Err(error) => out_of_memory(error),
    }
}

// Holds the session of the client of an IPv6 script.
fn run6<D: Dialogue>(alloc: Global, script: &Script6, dialogue: &mut D) -> Status
    requires { v6.is_valid script.now ≡ true }
    ensures { HoldsSessionOf D.moves (V6 script.now) result dialogue.old dialogue.new }
{
    match begin6(alloc, script) {
        Ok(mut client) => play_events(alloc, &mut client, dialogue),
        Err(error) => out_of_memory(error),
    }
}
