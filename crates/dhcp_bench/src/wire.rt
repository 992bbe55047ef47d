//! What is read from bytes and written to bytes, as it is measured.

use dhcp_wire::DhcpError;
use std::alloc::Global;

/// What bytes are read to, and written from.
pub trait Wire: Drop {
    /// What these bytes are.
    fn read(alloc: Global, bytes: &[u8]) -> Result<Self, DhcpError>;

    /// How many bytes it has when it is written.
    fn write(&self, alloc: Global) -> Result<usize, DhcpError>;
}

/// A message that grants a lease.
pub trait LeaseMessage: Wire {
    /// Reads the lease that it grants, and drops it; the message stays.
    fn read_lease(&self, alloc: Global) -> Result<(), DhcpError>;

    /// Moves its options into the lease that it grants, and drops that.
    fn move_to_lease(self, alloc: Global) -> Result<(), DhcpError>;
}

/// This count, if what was done went well; what it returned is dropped.
pub(crate) fn counted<T: Drop, N: Drop>(
    done: Result<T, DhcpError>,
    count: N,
) -> Result<N, DhcpError> {
    drop(done?);
    Ok(count)
}

/// Reads bytes.
pub(crate) fn read<W: Wire>(alloc: Global, bytes: &[u8]) -> Result<usize, DhcpError> {
    counted(W::read(alloc, bytes), bytes.len())
}

/// Reads bytes and writes what they are.
pub(crate) fn read_and_write<W: Wire>(alloc: Global, bytes: &[u8]) -> Result<usize, DhcpError> {
    let written = W::read(alloc, bytes)?.write(alloc)?;
    Ok(bytes.len().saturating_add(written))
}

/// Reads a message and the lease that it grants.
pub(crate) fn read_to_lease<M: LeaseMessage>(
    alloc: Global,
    bytes: &[u8],
) -> Result<usize, DhcpError> {
    let lease = M::read(alloc, bytes)?.read_lease(alloc);
    counted(lease, bytes.len())
}

/// Reads a message and moves its options into the lease that it grants.
pub(crate) fn moved_to_lease<M: LeaseMessage>(
    alloc: Global,
    bytes: &[u8],
) -> Result<usize, DhcpError> {
    let lease = M::read(alloc, bytes)?.move_to_lease(alloc);
    counted(lease, bytes.len())
}
