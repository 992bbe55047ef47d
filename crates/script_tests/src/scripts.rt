//! Texts of scripts of a client, and what is made of them.

use dhcp_script::{Script, read_script, read_script_v1, upgrade, write_script};
use dhcp_wire::{Bytes, DhcpError};
use std::alloc::{AllocError, Global};

/// The lines of an IPv4 script before its lease.
pub const FRONT: &str = "iface 1 020000000001 0 0\nhost -\nclient -\ncodes 010306\n";

/// The lines after its lease, before its events.
pub const REST: &str = "words 12345678\nstart 0\n";

/// What the times and the last fields of a lease are put after.
pub const ADDRESSES: &str = "192.0.2.10 192.0.2.1 192.0.2.1";

/// The last fields of a lease that has none of them.
pub const NO_FIELDS: &str = "0.0.0.0 none none none none none none none none";

/// The text in a version that has these lease and event lines.
pub fn text_of(
    alloc: Global,
    version: u8,
    lease: &str,
    events: &str,
) -> Result<String, AllocError> {
    format!(in alloc; "dhcp4 {version}\n{FRONT}lease {lease}\n{REST}{events}")
}

// Whether a script was read.
fn was_read(read: &Result<Option<Script>, DhcpError>) -> Result<bool, AllocError> {
    match read {
        Ok(script) => Ok(script.is_some()),
        Err(_) => Err(AllocError),
    }
}

/// Whether a text is that of a script.
pub fn is_read(alloc: Global, text: &str) -> Result<bool, AllocError> {
    was_read(&read_script(alloc, text.as_bytes()))
}

/// Whether the text that has these lease and event lines is that of a script.
pub fn is_script(alloc: Global, lease: &str, events: &str) -> Result<bool, AllocError> {
    let text = text_of(alloc, 2, lease, events)?;
    is_read(alloc, text.as_str())
}

/// Whether a text is that of a script in version 1.
pub fn is_read_v1(alloc: Global, text: &str) -> Result<bool, AllocError> {
    was_read(&read_script_v1(alloc, text.as_bytes()))
}

// Whether what was read is a script that is valid. None if no script was read.
fn is_read_valid(read: &Result<Option<Script>, DhcpError>) -> Result<Option<bool>, AllocError> {
    match read {
        Ok(Some(script)) => Ok(Some(script.is_valid())),
        Ok(None) => Ok(None),
        Err(_) => Err(AllocError),
    }
}

/// Whether the script of a text is valid. None if the text is that of no script.
pub fn is_valid(alloc: Global, text: &str) -> Result<Option<bool>, AllocError> {
    is_read_valid(&read_script(alloc, text.as_bytes()))
}

// Whether what was read is a script that is written as this text.
fn is_written_as(
    alloc: Global,
    read: &Result<Option<Script>, DhcpError>,
    text: &str,
) -> Result<bool, AllocError> {
    match read {
        Ok(Some(script)) => is_text(&write_script(alloc, script), text),
        Ok(None) => Ok(false),
        Err(_) => Err(AllocError),
    }
}

/// Whether a text is that of a script, which is written as the same bytes.
pub fn is_written_back(alloc: Global, text: &str) -> Result<bool, AllocError> {
    is_written_as(alloc, &read_script(alloc, text.as_bytes()), text)
}

/// Whether this text was written.
pub fn is_text(written: &Result<Bytes, DhcpError>, text: &str) -> Result<bool, AllocError> {
    match written {
        Ok(bytes) => Ok(bytes.as_slice() == text.as_bytes()),
        Err(_) => Err(AllocError),
    }
}

/// Whether a text in version 1 is upgraded to this one.
pub fn is_upgraded_to(alloc: Global, old: &str, new: &str) -> Result<bool, AllocError> {
    match &upgrade(alloc, old.as_bytes()) {
        Ok(Some(text)) => Ok(text.as_slice() == new.as_bytes()),
        Ok(None) => Ok(false),
        Err(_) => Err(AllocError),
    }
}

/// Whether a text in version 1 is upgraded.
pub fn is_upgradable(alloc: Global, old: &str) -> Result<bool, AllocError> {
    match &upgrade(alloc, old.as_bytes()) {
        Ok(text) => Ok(text.is_some()),
        Err(_) => Err(AllocError),
    }
}
