//! A message of either family that is kept: read once, and then written, or read to a lease, again
//! and again.

use crate::wire::{LeaseMessage, counted};
use dhcp_wire::DhcpError;
use std::alloc::Global;

/// What is done with a message that is kept.
#[derive(Clone, Copy)]
pub(crate) enum KeptTask {
    /// It is written.
    Write,
    /// The lease that it grants is read; the message stays.
    Lease,
}

/// How many bytes are written, or read to a lease, when this is done so many times with the message
/// of these bytes.
pub(crate) fn repeat<M: LeaseMessage>(
    alloc: Global,
    task: KeptTask,
    times: u32,
    bytes: &[u8],
) -> Result<u64, DhcpError> {
    let message = M::read(alloc, bytes)?;
    let mut total = 0u64;
    for _ in 0..times {
        let count = match task {
            KeptTask::Write => message.write(alloc),
            KeptTask::Lease => counted(message.read_lease(alloc), bytes.len()),
        };
        total = total.saturating_add(count? as u64);
    }
    Ok(total)
}
