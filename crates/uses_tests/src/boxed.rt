//! What a test owns in a box.

use dhcp_wire::DhcpError;
use std::alloc::Global;
use std::process::Abort;

// What was made, in a box: a client that a test owns itself makes the proof of the test large.
pub(crate) fn boxed<T: Drop>(rt: &impl Abort, alloc: Global, made: Result<T, DhcpError>) -> Box<T> {
    Box::new(alloc, made.expect(rt, "made")).expect(rt, "memory")
}
