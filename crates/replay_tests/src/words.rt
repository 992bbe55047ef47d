//! The words in capitals of the worked scripts: fields that come again and again, and packets in
//! hex.

use crate::{packets4, packets6};
use std::alloc::AllocError;

// Words, and what each stands for.
type Table = &'static [(&'static str, &'static str)];

/// Adds a line, each of its words in capitals replaced by what it stands for; of an empty line
/// nothing.
pub fn push_line(text: &mut String, line: &str) -> Result<(), AllocError> {
    if line.is_empty() {
        return Ok(());
    }
    for (index, word) in line.split(' ').enumerate() {
        if index > 0 {
            text.push_str(" ")?;
        }
        push_word(text, word)?;
    }
    text.push_str("\n")
}

// Adds what a word stands for, or the word itself.
fn push_word(text: &mut String, word: &str) -> Result<(), AllocError> {
    match field_of(word) {
        Some(field) => text.push_str(field),
        None => push_packet(text, word),
    }
}

// Adds the packet of a word, behind which the elapsed time of an IPv6 message may stand after a
// dot; or the word itself.
fn push_packet(text: &mut String, word: &str) -> Result<(), AllocError> {
    let (name, elapsed) = word.split_once('.').unwrap_or((word, ""));
    match packet_of(name) {
        Some(pieces) if elapsed.is_empty() => push_pieces(text, pieces),
        Some(pieces) => {
            push_pieces(text, pieces)?;
            text.push_str(packets6::ELAPSED)?;
            text.push_str(elapsed)
        }
        None => text.push_str(word),
    }
}

// Adds the bytes of a packet, in hex.
fn push_pieces(text: &mut String, pieces: &str) -> Result<(), AllocError> {
    for piece in pieces.split(' ') {
        push_bytes(text, piece_of(piece).unwrap_or(piece))?;
    }
    Ok(())
}

// Adds hex whose words stand apart; `*8` stands for eight zero bytes.
fn push_bytes(text: &mut String, words: &str) -> Result<(), AllocError> {
    for word in words.split(' ') {
        match word.strip_prefix('*') {
            Some(count) => push_zeros(text, count.parse::<u32>().unwrap_or(0))?,
            None => text.push_str(word)?,
        }
    }
    Ok(())
}

// Adds so many zero bytes.
fn push_zeros(text: &mut String, count: u32) -> Result<(), AllocError> {
    for _ in 0..count {
        text.push_str("00")?;
    }
    Ok(())
}

// What a field stands for.
fn field_of(word: &str) -> Option<&'static str> {
    found(&packets4::FIELDS, word).or(found(&packets6::FIELDS, word))
}

// The pieces of a packet.
fn packet_of(word: &str) -> Option<&'static str> {
    found(&packets4::PACKETS, word).or(found(&packets6::PACKETS, word))
}

// The bytes of a piece.
fn piece_of(word: &str) -> Option<&'static str> {
    found(&packets4::PIECES, word).or(found(&packets6::PIECES, word))
}

// What a word stands for in a table.
fn found(table: Table, word: &str) -> Option<&'static str> {
    for (name, meaning) in table {
        if *name == word {
            return Some(meaning);
        }
    }
    None
}
