//! What holds of every session. A law is the clause of a function that does nothing.

ghost use Rattle.std.specs.Prelude.{ℕ, List};
ghost use Rattle.dhcp_dialogue.specs.Dialogue.{Turn};
ghost use Rattle.dhcp_dialogue.specs.Standard.{MovesBytes, StdDialogueView};
ghost use Rattle.dhcp_script.specs.declared.script.Script.{Script};
ghost use Rattle.dhcp_tool.specs.declared.status.Status.TheVariants.{Done};
ghost use Rattle.dhcp_live.specs.RunBytes.{HoldsSessionInBytes};
ghost use Rattle.dhcp_live.specs.Tool.{IsHead, IsSessionOf, RunsLive};
ghost use Rattle.dhcp_live.specs.Transcript.{IsTranscript};

use dhcp_draws::laws as draws;
use dhcp4_client::laws as laws4;
use dhcp6_client::laws as laws6;

/// A transcript is a script. Of a session with the status `Done`, let the script be that of the
/// head, with the words of each line `words` behind its own, in order, and with the events that
/// were heard. Its text is its head and the lines that were heard but those lines `words`; without
/// any such line it is all that was heard. What was said to the events, but for the lines `dropped`
/// and `next`, are its outputs, so `run` prints the same. If words were added, this asks that the
/// head had at least eight, and that at each event before the last of them eight were left. It is
/// valid if it has at most 20,000 events.
pub fn a_transcript_is_a_script()
    ensures { (head : List ℕ) (script : Script) (turns : List Turn) → IsHead head script →
        IsSessionOf script turns Done → IsTranscript head script turns }
{
    laws4::table_is_lawful();
    laws6::table_is_lawful();
    draws::eight_words_are_enough();
}

/// A run of the program with the status 0, over a reader and a writer of std, takes a head and the
/// lines of a session from the front of what the reader had left, and adds just what was said in
/// that session to what the writer held, where std knows the bytes of these.
pub fn a_session_takes_and_writes_its_bytes()
    ensures { (old new : StdDialogueView) → RunsLive MovesBytes 0 old new →
        HoldsSessionInBytes old new }
{}
