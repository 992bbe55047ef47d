//! DHCPv4 messages.

use crate::wire::{LeaseMessage, Wire, counted};
use dhcp_clock::WordList;
use dhcp_wire::{BufferMut, DhcpError, ErrorKind, FixedText};
use dhcp4_lease::{DhcpV4Config, DhcpV4Lease, new_discovery};
use dhcp4_msg::DhcpV4Message;
use std::alloc::Global;

impl Wire for DhcpV4Message {
    fn read(alloc: Global, bytes: &[u8]) -> Result<Self, DhcpError> {
        DhcpV4Message::parse(alloc, bytes)
    }

    fn write(&self, alloc: Global) -> Result<usize, DhcpError> {
        let mut buffer = BufferMut::new(alloc);
        self.emit(&mut buffer)?;
        Ok(buffer.len())
    }
}

impl LeaseMessage for DhcpV4Message {
    fn read_lease(&self, alloc: Global) -> Result<(), DhcpError> {
        let mut words = WordList::new(Vec::new(alloc));
        counted(DhcpV4Lease::new_from_msg(alloc, self, &mut words), ())
    }

    fn move_to_lease(self, alloc: Global) -> Result<(), DhcpError> {
        let mut words = WordList::new(Vec::new(alloc));
        counted(DhcpV4Lease::from_message(alloc, self, &mut words), ())
    }
}

// Builds a Discover and writes it.
pub(crate) fn discover(alloc: Global) -> Result<usize, DhcpError> {
    let config = DhcpV4Config::empty(alloc)?;
    written_discover(alloc, &config)
}

// Builds the Discover of a configuration and writes it.
fn written_discover(alloc: Global, config: &DhcpV4Config) -> Result<usize, DhcpError> {
    if !config.is_within_limits() {
        return Err(DhcpError::new_fixed(ErrorKind::Bug, FixedText::Config));
    }
    new_discovery(alloc, 0x12345678, config)?.write(alloc)
}
