//! The line of the lease that a client held before, in a script of either family, and what follows.

ghost use Rattle.std.specs.Prelude.{◌≡◌, ◌++◌, OnOk, codes, string_bytes};
ghost use Rattle.dhcp_stream.specs.Line.{line};
ghost use Rattle.dhcp_stream.specs.TextReader.{after_tag, both, Takes};
ghost use Rattle.dhcp_script.specs.Field.{unless_none};
ghost use Rattle.dhcp_script.specs.FieldReader.{held_at};
ghost use Rattle.dhcp_script.specs.LifeReader.{life_at};

use crate::life::{Life, read_life};
use crate::version::Version;
use dhcp_stream::{ReadError, TextReader};
use std::alloc::{AllocError, Global};

/// A lease of a script.
pub trait HeldLease: Drop {
    ghost use Rattle.std.specs.Prelude.{◌≡◌, ◌++◌, ℕ, List, OnOk, string_bytes};
    ghost use Rattle.dhcp_wire.specs.Field.{Read};
    ghost use Rattle.dhcp_stream.specs.TextReader.{Takes};
    ghost use Rattle.dhcp_script.specs.declared.version.Version.{Version};

    /// The reading of its fields in a version, to the end of the line.
    ghost lease_at: { Version → List ℕ → Read Self };

    /// The text of its fields.
    ghost lease_text: { Self → List ℕ };

    /// Reads its fields, to the end of the line.
    fn read(alloc: Global, version: Version, text: &mut TextReader) -> Result<Self, ReadError>
        ensures { Takes result text.new (lease_at version text.old) };

    /// Puts its fields at the end of a text.
    fn push_to(&self, text: &mut String) -> Result<(), AllocError>
        ensures { OnOk result
            (string_bytes text.new ≡ string_bytes text.old ++ lease_text self.now) };
}

// Reads a lease or the word `none`, to the end of the line.
#[tactic(auto, unfolding(crate::specs::FieldReader::held_at))]
fn read_held_lease<L: HeldLease>(
    alloc: Global,
    version: Version,
    text: &mut TextReader,
) -> Result<Option<L>, ReadError>
    ensures { Takes result text.new (held_at (L.lease_at version) text.old) }
{
    if text.skip(b"none\n") {
        return Ok(None);
    }
    Ok(Some(L::read(alloc, version, text)?))
}

/// Reads the line of a lease, and then the lines from `words` to `end`. `Malformed` only if the
/// text does not go on with them; out of memory is the only other error.
pub fn read_lease_and_life<L: HeldLease>(
    alloc: Global,
    version: Version,
    text: &mut TextReader,
) -> Result<(Option<L>, Life), ReadError>
    ensures { Takes result text.new
        (both (after_tag (codes "lease ") (held_at (L.lease_at version))) life_at text.old) }
{
    text.tag(b"lease ")?;
    let lease = read_held_lease(alloc, version, text)?;
    let life = read_life(alloc, text)?;
    Ok((lease, life))
}

/// Puts the line of a lease at the end of a text.
pub fn push_held_lease<L: HeldLease>(text: &mut String, lease: &Option<L>) -> Result<(), AllocError>
    ensures { OnOk result (string_bytes text.new ≡ string_bytes text.old
        ++ line (codes "lease " ++ unless_none L.lease_text lease.now)) }
{
    match lease {
        None => text.push_str("lease none\n"),
        Some(lease) => {
            text.push_str("lease ")?;
            lease.push_to(text)?;
            text.push('\n')
        }
    }
}
