//! A caller that holds the bytes of a session. What it says of them is proved of the contracts
//! alone; that it succeeds is tested.

ghost use Rattle.std.specs.Prelude.{◌≡◌, [], IfOk, IfSome, Some};
ghost use Rattle.dhcp_dialogue.specs.Standard.{StdDialogueView};
ghost use Rattle.dhcp_live.specs.RunBytes.{HoldsSessionInBytes};

use crate::scripts::{IPV4, USUAL, script};
use dhcp_dialogue::StdDialogue;
use dhcp_live::{laws, live_tool};
use dhcp_wire::DhcpError;
use std::alloc::Global;

// What is said in a session over these bytes, if it ends with the status 0: its head and its lines
// are the front of the bytes, and what it says is all that the vector holds.
fn said_in_session(alloc: Global, bytes: &[u8]) -> Result<Option<Vec<u8>>, DhcpError>
    ensures { IfOk result (λ said. IfSome said (λ said. (after : StdDialogueView)
        × ((after.sink.contents ≡ Some said.items) × HoldsSessionInBytes (record {
          ahead = [];
          source = record { remaining = Some bytes.now; faults = 0 };
          sink = record { contents = Some []; faults = 0 };
        }) after))) }
{
    laws::a_session_takes_and_writes_its_bytes();
    let mut dialogue = StdDialogue::new(alloc, bytes, Vec::new(alloc))?;
    let status = live_tool(alloc, &mut dialogue);
    let (_, said) = dialogue.into_inner();
    if status == 0 {
        Ok(Some(said))
    } else {
        drop(said);
        Ok(None)
    }
}

#[test]
fn a_vector_holds_what_was_said(rt: HostRuntime) {
    let alloc = rt.alloc();
    let text = script(alloc, &IPV4, USUAL, "").expect(&rt, "memory");
    let said = said_in_session(alloc, text.as_bytes()).expect(&rt, "memory");
    assert!(rt; said.expect(&rt, "status 0").as_slice() == b"ok\n".as_slice());
    let said = said_in_session(alloc, b"end\n").expect(&rt, "memory");
    assert!(rt; said.is_none());
}
