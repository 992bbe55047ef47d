//! Streams and the fields of texts: sources and sinks, reading and writing whole, and fields with
//! numbers, addresses and hex, which are read from the front of a text.
#![tactic(auto)]

mod hex_numbers;
mod hex_text;
pub mod laws;
mod memory;
mod number;
mod standard;
mod stream;
mod text_reader;
mod whole;

pub use hex_numbers::{codes_field, words_field};
pub use hex_text::{hex_field, ipv6_field, mac_field, push_octets};
pub use memory::{MemSink, MemSource};
pub use number::{ipv4_field, number_field};
pub use standard::{StdSink, StdSource};
pub use stream::{ReadOutcome, Sink, Source, WriteOutcome};
pub use text_reader::{ReadError, TextReader, cut_field, found};
pub use whole::{MAX_INPUT, Whole, read_whole, write_whole};
