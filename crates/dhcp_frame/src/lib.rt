//! Frames that carry a UDP datagram: Ethernet II, IPv4 (RFC 791) or, read alone, IPv6 (RFC 8200),
//! and UDP (RFC 768).
#![tactic(auto)]

mod checksum;
mod frame;
mod view;
mod view6;
mod write;

pub use frame::{Frame, read_frame};
pub use view::FrameView;
pub use view6::FrameView6;
pub use write::{MOST_PAYLOAD, write_frame};
