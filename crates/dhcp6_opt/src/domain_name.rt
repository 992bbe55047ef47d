//! Domain names, RFC 1035 section 3.1 and RFC 8415 section 10.

ghost use Rattle.std.specs.Prelude.{◌≡◌, ◌==◌, ◌+◌, ◌^◌, ◌≤◌, MatchResult, length, ok_or, string_bytes};
ghost use Rattle.std.specs.List.{flat_map, list_all, list_any};
ghost use Rattle.dhcp_wire.specs.Error.{no_memory};
ghost use Rattle.dhcp_wire.specs.Outcome.{Answers, Emits, Gives};
ghost use Rattle.dhcp6_opt.specs.DomainName as names;

use crate::written::Written;
use dhcp_wire::{Buffer, BufferMut, DhcpError, ErrorKind, FixedText, Sequence, Text};
use std::alloc::Global;

// The most bytes of a label.
const LABEL_MAX: usize = 63;

// How many bytes a usual name has at most: room for these is made before it is read.
const USUAL_NAME_LEN: usize = 32;

// The names of a value, one after the other to its end. `InvalidDhcpMessage` if and only if names
// do not fill it.
pub(crate) fn names_in(alloc: Global, value: &[u8]) -> Result<Sequence<Text>, DhcpError>
    ensures { Gives (λ names. names) result
        (ok_or (names.names_in value.now) ErrorKind.InvalidDhcpMessage) }
{
    let mut names = Sequence::new(alloc);
    let mut rest = value;
    while !rest.is_empty() {
        let (name, later) = name_at(alloc, rest)?;
        names.push(name)?;
        rest = later;
    }
    Ok(names)
}

// The name at the front: up to its zero byte or the end; and the bytes after it.
// `InvalidDhcpMessage` if and only if what stands there before either is no label.
pub(crate) fn name_at(alloc: Global, bytes: &[u8]) -> Result<(Text, &[u8]), DhcpError>
    ensures { Gives (λ read. (read.0, read.1.now)) result
        (ok_or (names.name_at bytes.now) ErrorKind.InvalidDhcpMessage) }
{
    let mut text = String::with_capacity(alloc, bytes.len().min(USUAL_NAME_LEN))?;
    let mut rest = bytes;
    while let Some((length, later)) = rest.split_first() {
        if *length == 0 {
            return Ok((Text::from(text), later));
        }
        let (label, later) = label_at(rest)?;
        push_label(&mut text, label)?;
        rest = later;
    }
    Ok((Text::from(text), rest))
}

// The label at the front, and the bytes after it. `InvalidDhcpMessage` if and only if no label of 1
// to 63 bytes of UTF-8 without a dot is there.
fn label_at(bytes: &[u8]) -> Result<(&str, &[u8]), DhcpError>
    ensures { Answers (λ read. (read.0.now, read.1.now)) result
        (ok_or (names.label_at bytes.now) ErrorKind.InvalidDhcpMessage) }
{
    let mut rest = Buffer::new(bytes);
    let length = rest.get_u8()?;
    let label = rest.get_str_without_null(usize::from(length))?;
    if !is_label(label.as_bytes()) {
        return Err(DhcpError::invalid_message(FixedText::Unreadable));
    }
    Ok((label, rest.get_remains()))
}

// Whether a text has the length of a label and no dot.
fn is_label(text: &[u8]) -> bool
    ensures { result ≡ names.is_label text.now }
{
    has_label_length(text) && !has_dot(text)
}

// Whether there is a dot in a text.
fn has_dot(text: &[u8]) -> bool
    ensures { result ≡ list_any (λ byte. byte == 46) text.now }
{
    text.iter().any(|byte| *byte == b'.')
}

// Whether a label has 1 to 63 bytes.
fn has_label_length(label: &[u8]) -> bool
    ensures { result ≡ names.has_label_length label.now }
{
    !label.is_empty() && label.len() <= LABEL_MAX
}

// Puts a label at the end of a name, after a dot if it is not the first. Out of memory is the only
// error.
fn push_label(text: &mut String, label: &str) -> Result<(), DhcpError>
    ensures { MatchResult result
        (λ _. string_bytes text.new ≡ names.with_label (string_bytes text.old) label.now)
        (λ e. e ≡ no_memory) }
{
    if !text.is_empty() {
        text.push_str(".")?;
    }
    text.push_str(label)?;
    Ok(())
}

// A text as a name: its labels, and a zero byte.
impl Written for Text {
    ghost written = { names.written_name };

    fn written_len(&self) -> usize
        ensures value { result ≡ length (names.written_name self.now) }
        ensures few { result ≤ 2 ^ 63 + 1 }
    {
        if self.is_empty() {
            1
        } else {
            self.as_str().len() + 2
        }
    }

    fn emit(&self, buf: &mut BufferMut) -> Result<(), DhcpError> {
        if self.is_empty() {
            return buf.write_u8(0);
        }
        emit_labels(self.as_str(), buf)?;
        buf.write_u8(0)
    }
}

// Writes what stands between the dots of a text, each with its length before it.
fn emit_labels(text: &str, buf: &mut BufferMut) -> Result<(), DhcpError>
    ensures { Emits result buf.old buf.new
        (flat_map names.written_label (names.between_dots text.now)) }
{
    for label in text.split('.') {
        emit_label(label, buf)?;
    }
    Ok(())
}

// Writes the length of a label in one byte, and the label. Of a length that one byte does not hold
// the low one is written.
fn emit_label(label: &str, buf: &mut BufferMut) -> Result<(), DhcpError>
    ensures { Emits result buf.old buf.new (names.written_label label.now) }
{
    buf.write_u8((label.len() & 0xff) as u8)?;
    buf.write_bytes(label.as_bytes())
}

// Whether a name can be written: its labels have 1 to 63 bytes each.
#[tactic(auto, unfolding(crate::specs::DomainName::name_fits))]
pub(crate) fn name_fits(name: &Text) -> bool
    ensures { result ≡ names.name_fits name.now }
{
    name.is_empty() || labels_fit(name.as_str())
}

// Whether what stands between the dots of a text has 1 to 63 bytes each.
fn labels_fit(text: &str) -> bool
    ensures { result ≡ list_all names.has_label_length (names.between_dots text.now) }
{
    for label in text.split('.') {
        if !has_label_length(label.as_bytes()) {
            return false;
        }
    }
    true
}

// Whether each of some names can be written.
pub(crate) fn names_fit(texts: &[Text]) -> bool
    ensures { result ≡ list_all names.name_fits texts.now }
{
    texts.iter().all(|name| name_fits(name))
}
