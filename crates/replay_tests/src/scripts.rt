//! Scripts of a client, and what is printed for them.

use crate::program::{live, run};
use crate::words::push_line;
use dhcp_wire::DhcpError;
use std::alloc::{AllocError, Global};

/// The scripts of a family: their first word, their usual version, and their usual lines before the
/// events.
#[derive(Clone, Copy)]
pub struct Family {
    word: &'static str,
    version: u32,
    front: &'static str,
}

/// Scripts of an IPv4 client.
pub const IPV4: Family = Family {
    word: "dhcp4",
    version: 2,
    front: "
        iface 1 020000000001 0 0
        host -
        client -
        codes 010306
        lease none
        words 12345678
        start 0
    ",
};

/// Scripts of an IPv4 client with the message forms of RFC 2131.
pub const IPV4_RFC2131: Family = Family {
    word: "dhcp4",
    version: 3,
    front: "
        iface 1 020000000001 0 0
        forms rfc2131
        host -
        client -
        codes 010306
        lease none
        words 12345678
        start 0
    ",
};

/// Scripts of an IPv6 client.
pub const IPV6: Family = Family {
    word: "dhcp6",
    version: 2,
    front: "
        iface 1 fe800000000000000000000000000001 - na 0
        duid 00030001020000000001
        codes 0017
        lease none
        words 00abcdef
        start 0
    ",
};

/// No line in place of a usual one.
pub const USUAL: &str = "";

/// One life of a client: a line for each event, as in a script, and below it a line for each output
/// of that event, without its number.
pub struct Life {
    /// What it shows.
    pub name: &'static str,
    /// A line of its script, in place of the usual one with the same tag, or `USUAL`.
    pub line: &'static str,
    /// The lines that it begins with; several lives may share them.
    pub begins: &'static str,
    /// The lines that follow.
    pub goes_on: &'static str,
}

/// Whether the script of a life is printed as the life says, and a client that is told its lines
/// one at a time says the same.
pub fn is_printed(alloc: Global, family: &Family, life: &Life) -> Result<bool, DhcpError> {
    let lines = format!(in alloc; "{}{}", life.begins, life.goes_on)?;
    let text = script(alloc, family, life.line, lines.as_str())?;
    let printed = printed(alloc, lines.as_str())?;
    let is_run = run(alloc, &["run"], text.as_bytes())?.is(0, printed.as_str());
    Ok(is_run && is_said(alloc, text.as_str(), printed.as_str())?)
}

// Whether a client that is told these lines says this, but for the lines `dropped` and `next`.
fn is_said(alloc: Global, text: &str, printed: &str) -> Result<bool, DhcpError> {
    let ended = live(alloc, text.as_bytes())?;
    let said = outputs_of(alloc, ended.text.as_slice())?;
    Ok(ended.status == 0 && said.as_str() == printed)
}

// What is said without the lines `dropped` and `next`.
fn outputs_of(alloc: Global, said: &[u8]) -> Result<String, AllocError> {
    let mut text = String::new(alloc);
    for line in std::str::from_utf8(said).unwrap_or("").lines() {
        if !line.starts_with("dropped ") && !line.starts_with("next ") {
            text.push_str(line)?;
            text.push_str("\n")?;
        }
    }
    Ok(text)
}

/// The text of a script with this line, in place of the usual one with the same tag, and with the
/// events among these lines.
pub fn script(
    alloc: Global,
    family: &Family,
    line: &str,
    lines: &str,
) -> Result<String, AllocError> {
    script_in(alloc, family, family.version, line, lines)
}

/// Its text in a version.
pub fn script_in(
    alloc: Global,
    family: &Family,
    version: u32,
    line: &str,
    lines: &str,
) -> Result<String, AllocError> {
    let mut text = format!(in alloc; "{} {version}\n", family.word)?;
    for usual in family.front.lines() {
        push_line(&mut text, line_of(usual.trim(), line))?;
    }
    push_events(&mut text, lines)?;
    text.push_str("end\n")?;
    Ok(text)
}

// The other line if it has the same tag as the usual one, else the usual one.
fn line_of<'a>(usual: &'a str, other: &'a str) -> &'a str {
    if tag_of(usual) == tag_of(other) {
        other
    } else {
        usual
    }
}

// The first word of a line.
fn tag_of(line: &str) -> &str {
    line.split(' ').next().unwrap_or(line)
}

// Adds the events among these lines.
fn push_events(text: &mut String, lines: &str) -> Result<(), AllocError> {
    for line in lines.lines() {
        if is_event(line) {
            push_line(text, line.trim())?;
        }
    }
    Ok(())
}

// What is printed according to these lines: the outputs among them, each with the number of its
// event.
fn printed(alloc: Global, lines: &str) -> Result<String, AllocError> {
    let mut text = String::new(alloc);
    let mut number = 0u32;
    for line in lines.lines() {
        if is_event(line) {
            number = number.saturating_add(1);
        } else {
            push_output(&mut text, number, line.trim())?;
        }
    }
    text.push_str("ok\n")?;
    Ok(text)
}

// Adds an output of the event with this number, if there is one.
fn push_output(text: &mut String, number: u32, output: &str) -> Result<(), AllocError> {
    if output.is_empty() {
        return Ok(());
    }
    write!(text, "{number} ")?;
    push_line(text, output)
}

// Whether a line is that of an event.
fn is_event(line: &str) -> bool {
    line.trim().starts_with("at ")
}
