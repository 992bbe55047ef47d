//! The header of a capture file in the classic pcap format.

ghost use Rattle.std.specs.Prelude.{◌≡◌, ◌≤◌, IfSome, length};
ghost use Rattle.dhcp_wire.specs.Outcome.{Finds};
ghost use Rattle.dhcp_inspect.specs.Header.{
  header_in,
  header_in_either,
  header_length,
  read_header,
  u32_in,
  u32_of,
  unit_of,
};

/// The order of the bytes of a file's numbers.
#[derive(Clone, Copy, Debug, PartialEq, Eq)]
pub enum ByteOrder {
    /// The most significant byte first.
    BigEndian,
    /// The least significant byte first.
    LittleEndian,
}

/// What the fraction of a second in a record counts.
#[derive(Clone, Copy, Debug, PartialEq, Eq)]
pub enum TimeUnit {
    /// Millionths of a second: the magic number is a1b2c3d4.
    Microseconds,
    /// Billionths of a second: the magic number is a1b23c4d.
    Nanoseconds,
}

/// What the header of a file says.
#[derive(Clone, Copy, Debug, PartialEq, Eq)]
pub struct Header {
    /// The order of the bytes of each number in the headers of the file and of its records.
    pub order: ByteOrder,
    /// The unit of the fractions.
    pub unit: TimeUnit,
}

// How many bytes a header has.
const HEADER_LENGTH: usize = 24;

// The position of the link type.
const LINK_TYPE: usize = 20;

// The link type of Ethernet.
const ETHERNET: u32 = 1;

impl ByteOrder {
    /// The number of the first four bytes.
    pub fn u32_in(self, bytes: &[u8]) -> u32
        requires { 4 ≤ length bytes.now }
        ensures { result ≡ u32_in self bytes.now }
    {
        let mut number = [0; 4];
        number.copy_from_slice(&bytes[..4]);
        self.u32_of(number)
    }

    // The number of four bytes.
    fn u32_of(self, bytes: [u8; 4]) -> u32
        ensures { result ≡ u32_of self bytes }
    {
        match self {
            ByteOrder::BigEndian => u32::from_be_bytes(bytes),
            ByteOrder::LittleEndian => u32::from_le_bytes(bytes),
        }
    }
}

impl TimeUnit {
    // The unit that a magic number says, if it is one.
    fn of_magic(magic: u32) -> Option<TimeUnit>
        ensures { result ≡ unit_of magic }
    {
        match magic {
            0xa1b2c3d4 => Some(TimeUnit::Microseconds),
            0xa1b23c4d => Some(TimeUnit::Nanoseconds),
            _ => None,
        }
    }
}

impl Header {
    /// The header of a file, and the bytes after it: none if and only if the file has fewer than 24
    /// bytes, or in either order another magic number or link type.
    #[tactic(auto, unfolding(crate::specs::Header::read_header))]
    pub fn read(file: &[u8]) -> Option<(Header, &[u8])>
        ensures found { Finds (λ read. (read.0, read.1.now)) result (read_header file.now) }
        ensures shorter { IfSome result (λ read. length read.1.now ≤ length file.now) }
    {
        if file.len() < HEADER_LENGTH {
            return None;
        }
        let header = Header::in_either(file)?;
        Some((header, &file[HEADER_LENGTH..]))
    }

    // The header of a file whose numbers are in one order or the other.
    fn in_either(file: &[u8]) -> Option<Header>
        requires { header_length ≤ length file.now }
        ensures { result ≡ header_in_either file.now }
    {
        let big = Header::in_order(ByteOrder::BigEndian, file);
        big.or(Header::in_order(ByteOrder::LittleEndian, file))
    }

    // The header of a file whose numbers are in this order.
    #[tactic(auto, unfolding(crate::specs::Header::header_in))]
    fn in_order(order: ByteOrder, file: &[u8]) -> Option<Header>
        requires { header_length ≤ length file.now }
        ensures { result ≡ header_in order file.now }
    {
        if order.u32_in(&file[LINK_TYPE..]) != ETHERNET {
            return None;
        }
        let unit = TimeUnit::of_magic(order.u32_in(file))?;
        Some(Header { order, unit })
    }
}
