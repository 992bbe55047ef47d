//! The reader of the fields of a lease of an IPv6 script.

ghost use Rattle.std.specs.Prelude.{◌≡◌};
ghost use Rattle.dhcp_stream.specs.TextReader.{Takes};
ghost use Rattle.dhcp_script.specs.Lease6Reader.{
  lease6_at,
  no_later_fields,
  later_fields_at,
};

use crate::Lease6;
use crate::field::{read_field, read_three};
use crate::version::Version;
use dhcp_stream::{ReadError, TextReader};
use dhcp_wire::Bytes;
use std::alloc::Global;
use std::net::Ipv6Addr;

// The fields of a lease that the later versions alone have.
#[derive(Drop)]
struct LaterFields {
    xid: u32,
    cli_duid: Bytes,
    srv_ip: Ipv6Addr,
}

impl LaterFields {
    // Those of the empty lease.
    fn none(alloc: Global) -> Self
        ensures { result ≡ no_later_fields }
    {
        LaterFields {
            xid: 0,
            cli_duid: Bytes::new(alloc),
            srv_ip: Ipv6Addr::UNSPECIFIED,
        }
    }

    // Reads them in a version; in version 1 they are those of the empty lease.
    #[tactic(auto, unfolding(crate::specs::Lease6Reader::later_fields_at))]
    fn read(alloc: Global, version: Version, text: &mut TextReader) -> Result<Self, ReadError>
        ensures { Takes result text.new (later_fields_at version text.old) }
    {
        match version {
            Version::One => Ok(LaterFields::none(alloc)),
            Version::Later => Ok(LaterFields {
                xid: read_field(alloc, text, b' ')?,
                cli_duid: text.hex(alloc, b' ')?,
                srv_ip: read_field(alloc, text, b'\n')?,
            }),
        }
    }
}

/// Reads the fields of a lease in a version, to the end of the line. `Malformed` only if the text
/// does not go on with them; out of memory is the only other error.
#[tactic(auto, unfolding(crate::specs::Lease6Reader::lease6_at))]
pub fn read_lease(
    alloc: Global,
    version: Version,
    text: &mut TextReader,
) -> Result<Lease6, ReadError>
    ensures { Takes result text.new (lease6_at version text.old) }
{
    let (ia_type, iaid, address) = read_three(alloc, text, b' ')?;
    let prefix_len = read_field(alloc, text, b' ')?;
    let srv_duid = text.hex(alloc, b' ')?;
    let (t1_sec, t2_sec, preferred_time_sec) = read_three(alloc, text, b' ')?;
    let valid_time_sec = read_field(alloc, text, version.end_of_times())?;
    let later = LaterFields::read(alloc, version, text)?;
    Ok(Lease6 {
        ia_type,
        iaid,
        address,
        prefix_len,
        srv_duid,
        t1_sec,
        t2_sec,
        preferred_time_sec,
        valid_time_sec,
        xid: later.xid,
        cli_duid: later.cli_duid,
        srv_ip: later.srv_ip,
    })
}
