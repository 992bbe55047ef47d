//! What a packet is to a client as it stands: the answer that it awaits, or why it is none. Both
//! families of client say it with the same words.
#![tactic(auto)]

mod open_attempt;
mod packet_verdict;

pub use open_attempt::is_open;
pub use packet_verdict::PacketVerdict;
