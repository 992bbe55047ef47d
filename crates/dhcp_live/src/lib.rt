//! A client that lives on: it is told one event at a time, and answers each before it is told the
//! next. The head of a script says how it begins; the lines of its events are those of scripts.
#![tactic(auto)]

mod answer;
mod begin;
mod client;
mod dropped;
mod head;
pub mod laws;
mod session;
mod tool;
mod word_queue;

pub use answer::{EventReply, push_answer};
pub use begin::{begin4, begin6};
pub use client::LiveClient;
pub use dhcp_dialogue::{Dialogue, MAX_LINE, StdDialogue, Unheard};
pub use dropped::{Dropped, PlainVerdict, VerdictClient};
pub use tool::live_tool;
pub use word_queue::WordQueue;
