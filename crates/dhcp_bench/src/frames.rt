//! Frames.

use crate::wire::Wire;
use dhcp_frame::{Frame, MOST_PAYLOAD, read_frame, write_frame};
use dhcp_wire::{DhcpError, ErrorKind, FixedText};
use std::alloc::Global;

impl Wire for Frame {
    fn read(alloc: Global, bytes: &[u8]) -> Result<Self, DhcpError> {
        read_frame(alloc, bytes)
    }

    fn write(&self, alloc: Global) -> Result<usize, DhcpError> {
        if self.payload.len() > MOST_PAYLOAD {
            return Err(DhcpError::new_fixed(ErrorKind::Bug, FixedText::Unreadable));
        }
        Ok(write_frame(alloc, self)?.len())
    }
}
