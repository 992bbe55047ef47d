//! An inspector of capture files in the classic pcap format: a line for each DHCP message of either
//! family, in order, each once.
#![tactic(auto)]

mod capture;
mod header;
pub mod laws;
mod message;
mod record;
mod report;
mod tool;

pub use capture::Capture;
pub use header::TimeUnit;
pub use message::{Message, Message4, Message6};
pub use record::Record;
pub use report::inspect;
pub use tool::inspect_tool;
