//! The identifiers of a script of an IPv6 client, RFC 8415 section 11: they are written as bytes.

ghost use Rattle.std.specs.Prelude.{◌≡◌};
ghost use Rattle.dhcp_wire.specs.Outcome.{Makes};
ghost use Rattle.dhcp6_opt.specs.Duid.{written_duid};
ghost use Rattle.dhcp_script.specs.Duid as duids;

use dhcp_wire::{BufferMut, Bytes, DhcpError, none_if_refused};
use dhcp6_opt::DhcpV6Duid;
use std::alloc::Global;

/// How many bytes an identifier has at most in a script: the two of its type, and 128 after them
/// (RFC 8415, section 11.1).
pub const MAX_DUID_LEN: usize = 130;

/// Whether bytes are an identifier, as a script has it: there are 2 to 130. RFC 8415, section 11.1,
/// asks for two bytes of a type and 1 to 128 bytes after them; a script may also have a type alone,
/// and the client itself accepts 2 to 65,535 bytes.
pub fn is_script_duid(bytes: &[u8]) -> bool
    ensures { result ≡ duids.is_script_duid bytes.now }
{
    2 <= bytes.len() && bytes.len() <= MAX_DUID_LEN
}

/// Whether there are no bytes, or 2 to 130.
pub fn is_duid_or_none(bytes: &[u8]) -> bool
    ensures { result ≡ duids.is_duid_or_none bytes.now }
{
    bytes.is_empty() || is_script_duid(bytes)
}

/// The identifier of some bytes, as many as there are; fewer than two are `Raw`. Out of memory is
/// the only error.
pub fn duid_of(alloc: Global, bytes: &[u8]) -> Result<DhcpV6Duid, DhcpError>
    ensures { Makes (λ duid. duid) result (duids.duid_of bytes.now) }
{
    match none_if_refused(DhcpV6Duid::parse(alloc, bytes))? {
        Some(duid) => Ok(duid),
        None => Ok(DhcpV6Duid::Raw(Bytes::from_slice(alloc, bytes)?)),
    }
}

/// The bytes of an identifier, as a message has them. Out of memory is the only error.
pub fn bytes_of(alloc: Global, duid: &DhcpV6Duid) -> Result<Bytes, DhcpError>
    ensures { Makes (λ bytes. bytes) result (written_duid duid.now) }
{
    let mut buf = BufferMut::with_capacity(alloc, MAX_DUID_LEN)?;
    duid.emit(&mut buf)?;
    Ok(buf.into_bytes())
}
