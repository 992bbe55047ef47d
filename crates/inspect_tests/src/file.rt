//! Capture files, written record by record.

use std::alloc::{AllocError, Global};

/// How the numbers of a file are written, and what its fractions count.
#[derive(Clone, Copy, Debug)]
pub struct Layout {
    /// Whether the least significant byte comes first.
    pub is_little: bool,
    /// Whether the fractions are in nanoseconds.
    pub has_nanoseconds: bool,
}

/// Big-endian, with microseconds.
pub const BIG: Layout = Layout {
    is_little: false,
    has_nanoseconds: false,
};

impl Layout {
    /// A file of this layout without a record, of version 2.4, whose link type is this.
    pub fn file(self, alloc: Global, link_type: u32) -> Result<Vec<u8>, AllocError> {
        let mut file = Vec::new(alloc);
        let magic = if self.has_nanoseconds {
            0xa1b23c4d
        } else {
            0xa1b2c3d4
        };
        self.put(&mut file, magic)?;
        self.put(
            &mut file,
            if self.is_little {
                0x00040002
            } else {
                0x00020004
            },
        )?;
        self.put(&mut file, 0)?;
        self.put(&mut file, 0)?;
        self.put(&mut file, 262144)?;
        self.put(&mut file, link_type)?;
        Ok(file)
    }

    /// Puts a number at the end of a file.
    pub fn put(self, file: &mut Vec<u8>, number: u32) -> Result<(), AllocError> {
        if self.is_little {
            file.extend_from_slice(&number.to_le_bytes())
        } else {
            file.extend_from_slice(&number.to_be_bytes())
        }
    }

    /// Puts a record at the end of a file: a packet, with the second and the fraction at which it
    /// was seen, and how long it was on the wire.
    pub fn put_record(
        self,
        file: &mut Vec<u8>,
        moment: (u32, u32),
        packet: &[u8],
        wire_length: u32,
    ) -> Result<(), AllocError> {
        self.put(file, moment.0)?;
        self.put(file, moment.1)?;
        self.put(file, u32::try_from(packet.len()).unwrap_or(u32::MAX))?;
        self.put(file, wire_length)?;
        file.extend_from_slice(packet)
    }
}
