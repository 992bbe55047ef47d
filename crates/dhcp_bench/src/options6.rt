//! Lists of DHCPv6 options.

use crate::wire::Wire;
use dhcp_wire::{BufferMut, DhcpError};
use dhcp6_opt::DhcpV6Options;
use std::alloc::Global;

impl Wire for DhcpV6Options {
    fn read(alloc: Global, bytes: &[u8]) -> Result<Self, DhcpError> {
        DhcpV6Options::parse(alloc, bytes)
    }

    fn write(&self, alloc: Global) -> Result<usize, DhcpError> {
        let mut buffer = BufferMut::new(alloc);
        self.emit(&mut buffer)?;
        Ok(buffer.len())
    }
}
