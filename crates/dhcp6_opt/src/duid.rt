//! DHCP unique identifiers, RFC 8415 section 11.

mod enterprise;
mod link_layer;
mod uuid;

ghost use Rattle.std.specs.Prelude.{◌≡◌, ◌↔◌, [], length, ok_or, option_copied, unwrap_or, IsTrue};
ghost use Rattle.dhcp_clock.specs.Words.{Draws};
ghost use Rattle.dhcp_wire.specs.Outcome.{Emits, Gives, Makes};
ghost use Rattle.dhcp6_opt.specs.DrawnDuid.{DrawsDuid};
ghost use Rattle.dhcp6_opt.specs.Duid.{drawn_duid, duid_in, no_duid, random_duid, written_duid};
ghost use Rattle.dhcp6_opt.specs.Duid as duids;

use crate::written::{emit_all, pair};
use dhcp_clock::Words;
use dhcp_wire::{
    Buffer, BufferMut, Bytes, DhcpError, ErrorKind, FixedText, TryClone, none_if_refused,
};
pub use enterprise::DhcpV6DuidEnterpriseNumber;
pub use link_layer::{DhcpV6DuidLinkLayerAddr, DhcpV6DuidLinkLayerAddrPlusTime};
use std::alloc::Global;
pub use uuid::DhcpV6DuidUuid;

/// A DHCP unique identifier (DUID), RFC 8415 section 11. Identifiers are ordered by type, as they
/// stand here, then by their fields.
#[derive(Debug, Drop, PartialEq, Eq, PartialOrd, Ord)]
pub enum DhcpV6Duid {
    /// Type 1, DUID-LLT: a link-layer address and a time. RFC 8415 section 11.2.
    LinkLayerAddressPlusTime(DhcpV6DuidLinkLayerAddrPlusTime),
    /// Type 2, DUID-EN: assigned by a vendor. RFC 8415 section 11.3.
    EnterpriseNumber(DhcpV6DuidEnterpriseNumber),
    /// Type 3, DUID-LL: a link-layer address. RFC 8415 section 11.4.
    LinkLayerAddress(DhcpV6DuidLinkLayerAddr),
    /// Type 4, DUID-UUID: a universally unique identifier. RFC 8415 section 11.5.
    UUID(DhcpV6DuidUuid),
    /// Any other identifier, as its bytes, the two of its type first.
    Raw(Bytes),
}

// The types of RFC 8415 section 11.
const LINK_LAYER_ADDRESS_PLUS_TIME: u16 = 1;

const ENTERPRISE_NUMBER: u16 = 2;

const LINK_LAYER_ADDRESS: u16 = 3;

const UUID: u16 = 4;

// A type that has no name, of identifiers that are made at random.
const RANDOM: u16 = 255;

impl DhcpV6Duid {
    /// The identifier of these bytes. `InvalidDhcpMessage` if and only if there are fewer than two.
    /// What its type does not read is kept as its bytes alone.
    #[tactic(auto, unfolding(crate::specs::Duid::duid_in))]
    pub fn parse(alloc: Global, raw: &[u8]) -> Result<Self, DhcpError>
        ensures { Gives (λ duid. duid) result
            (ok_or (duid_in raw.now) ErrorKind.InvalidDhcpMessage) }
    {
        let mut rest = Buffer::new(raw);
        let kind = rest.get_u16_be()?;
        match typed_duid(alloc, kind, rest.get_remains())? {
            Some(duid) => Ok(duid),
            None => Ok(DhcpV6Duid::Raw(Bytes::from_slice(alloc, raw)?)),
        }
    }

    /// Writes the bytes of the identifier. Out of memory is the only error; some of the bytes are
    /// then written.
    #[tactic(auto, unfolding(crate::specs::Duid::written_duid))]
    pub fn emit(&self, buf: &mut BufferMut) -> Result<(), DhcpError>
        ensures { Emits result buf.old buf.new (written_duid self.now) }
    {
        match self {
            DhcpV6Duid::LinkLayerAddressPlusTime(duid) => {
                buf.write_bytes(&pair(LINK_LAYER_ADDRESS_PLUS_TIME, duid.hardware_type))?;
                buf.write_u32_be(duid.time)?;
                buf.write_bytes(duid.link_layer_address.as_slice())
            }
            DhcpV6Duid::EnterpriseNumber(duid) => {
                buf.write_u16_be(ENTERPRISE_NUMBER)?;
                buf.write_u32_be(duid.enterprise_number)?;
                buf.write_bytes(duid.identifier.as_slice())
            }
            DhcpV6Duid::LinkLayerAddress(duid) => {
                buf.write_bytes(&pair(LINK_LAYER_ADDRESS, duid.hardware_type()))?;
                buf.write_bytes(duid.link_layer_address().as_slice())
            }
            DhcpV6Duid::UUID(duid) => {
                buf.write_u16_be(UUID)?;
                buf.write_u128_be(duid.number())
            }
            DhcpV6Duid::Raw(bytes) => buf.write_bytes(bytes.as_slice()),
        }
    }

    /// How many bytes the identifier has.
    #[tactic(auto, unfolding(crate::specs::Duid::written_duid))]
    pub fn written_len(&self) -> usize
        ensures { result ≡ length (written_duid self.now) }
    {
        match self {
            DhcpV6Duid::LinkLayerAddressPlusTime(duid) => {
                8 + duid.link_layer_address.as_slice().len()
            }
            DhcpV6Duid::EnterpriseNumber(duid) => 6 + duid.identifier.as_slice().len(),
            DhcpV6Duid::LinkLayerAddress(duid) => 4 + duid.link_layer_address().as_slice().len(),
            DhcpV6Duid::UUID(_) => 18,
            DhcpV6Duid::Raw(bytes) => bytes.len(),
        }
    }

    /// Whether the identifier has no bytes: it is `Raw` and empty.
    #[tactic(auto, unfolding(crate::specs::Duid::written_duid))]
    pub fn is_empty(&self) -> bool
        ensures { IsTrue result ↔ (self.now ≡ DhcpV6Duid.Raw []) }
    {
        match self {
            DhcpV6Duid::Raw(bytes) => bytes.is_empty(),
            _ => false,
        }
    }

    /// An identifier of four random words: their bytes, with a type that has no name, 255, in place
    /// of the first two. Out of memory is the only error, and comes after the draws.
    pub fn random<W: Words>(alloc: Global, words: &mut W) -> Result<Self, DhcpError>
        ensures drawn { Draws (W.left words.old) (W.left words.new) drawn_duid
            (λ duid. Makes (λ made. made) result duid) }
        ensures taken { DrawsDuid W.gives drawn_duid words.old words.new
            (λ duid. Makes (λ made. made) result duid) }
    {
        let a = words.next_word();
        let b = words.next_word();
        let c = words.next_word();
        let d = words.next_word();
        DhcpV6Duid::of_words(alloc, a, b, c, d)
    }

    // The identifier of four random words.
    fn of_words(alloc: Global, a: u32, b: u32, c: u32, d: u32) -> Result<Self, DhcpError>
        ensures { Makes (λ made. made) result (random_duid a b c d) }
    {
        let [_, _, third, fourth] = a.to_be_bytes();
        let mut buf = BufferMut::with_capacity(alloc, 16)?;
        buf.write_u16_be(RANDOM)?;
        buf.write_bytes(&[third, fourth])?;
        emit_all(&[b, c, d], &mut buf)?;
        Ok(DhcpV6Duid::Raw(buf.into_bytes()))
    }

    /// A copy of an identifier, or the one without bytes if there is none. Out of memory is the
    /// only error.
    pub fn copied_or_empty(alloc: Global, duid: Option<&DhcpV6Duid>) -> Result<Self, DhcpError>
        ensures { Makes (λ made. made) result (unwrap_or (option_copied duid.entry) no_duid) }
    {
        match duid {
            Some(duid) => duid.try_clone(alloc),
            None => Ok(DhcpV6Duid::Raw(Bytes::new(alloc))),
        }
    }

    /// A copy; out of memory is the only error.
    pub fn try_clone(&self, alloc: Global) -> Result<Self, DhcpError>
        ensures { Makes (λ made. made) result self.now }
    {
        match self {
            DhcpV6Duid::LinkLayerAddressPlusTime(duid) => {
                Ok(DhcpV6Duid::LinkLayerAddressPlusTime(duid.try_clone(alloc)?))
            }
            DhcpV6Duid::EnterpriseNumber(duid) => {
                Ok(DhcpV6Duid::EnterpriseNumber(duid.try_clone(alloc)?))
            }
            DhcpV6Duid::LinkLayerAddress(duid) => {
                Ok(DhcpV6Duid::LinkLayerAddress(duid.try_clone(alloc)?))
            }
            DhcpV6Duid::UUID(duid) => Ok(DhcpV6Duid::UUID(*duid)),
            DhcpV6Duid::Raw(bytes) => Ok(DhcpV6Duid::Raw(bytes.try_clone(alloc)?)),
        }
    }
}

impl TryClone for DhcpV6Duid {
    fn try_clone(&self, alloc: Global) -> Result<Self, DhcpError> {
        DhcpV6Duid::try_clone(self, alloc)
    }
}

// The identifier of a type that has a name, in the bytes after the type; none where they do not
// have its fields.
fn typed_duid(alloc: Global, kind: u16, bytes: &[u8]) -> Result<Option<DhcpV6Duid>, DhcpError>
    ensures { Makes (λ duid. duid) result (duids.typed_duid kind bytes.now) }
{
    match kind {
        LINK_LAYER_ADDRESS_PLUS_TIME => none_if_refused(link_layer_time_in(alloc, bytes)),
        ENTERPRISE_NUMBER => none_if_refused(enterprise_in(alloc, bytes)),
        LINK_LAYER_ADDRESS => none_if_refused(link_layer_in(alloc, bytes)),
        UUID => none_if_refused(uuid_in(bytes)),
        _ => Ok(None),
    }
}

// The fields of a DUID-LLT, after its type.
fn link_layer_time_in(alloc: Global, bytes: &[u8]) -> Result<DhcpV6Duid, DhcpError>
    ensures { Gives (λ duid. duid) result
        (ok_or (duids.link_layer_time_in bytes.now) ErrorKind.InvalidDhcpMessage) }
{
    // hardware type, time, address
    let mut rest = Buffer::new(bytes);
    let hardware_type = rest.get_u16_be()?;
    let time = rest.get_u32_be()?;
    let link_layer_address = Bytes::from_slice(alloc, rest.get_remains())?;
    Ok(DhcpV6Duid::LinkLayerAddressPlusTime(DhcpV6DuidLinkLayerAddrPlusTime {
        hardware_type,
        time,
        link_layer_address,
    }))
}

// The fields of a DUID-EN, after its type.
fn enterprise_in(alloc: Global, bytes: &[u8]) -> Result<DhcpV6Duid, DhcpError>
    ensures { Gives (λ duid. duid) result
        (ok_or (duids.enterprise_in bytes.now) ErrorKind.InvalidDhcpMessage) }
{
    let mut rest = Buffer::new(bytes);
    let enterprise_number = rest.get_u32_be()?;
    let identifier = Bytes::from_slice(alloc, rest.get_remains())?;
    Ok(DhcpV6Duid::EnterpriseNumber(DhcpV6DuidEnterpriseNumber {
        enterprise_number,
        identifier,
    }))
}

// The fields of a DUID-LL, after its type.
fn link_layer_in(alloc: Global, bytes: &[u8]) -> Result<DhcpV6Duid, DhcpError>
    ensures { Gives (λ duid. duid) result
        (ok_or (duids.link_layer_in bytes.now) ErrorKind.InvalidDhcpMessage) }
{
    let mut rest = Buffer::new(bytes);
    let hardware_type = rest.get_u16_be()?;
    let link_layer_address = Bytes::from_slice(alloc, rest.get_remains())?;
    Ok(DhcpV6Duid::LinkLayerAddress(DhcpV6DuidLinkLayerAddr::of_parts(
        hardware_type,
        link_layer_address,
    )))
}

// The number of a DUID-UUID, after its type: sixteen bytes and no more.
fn uuid_in(bytes: &[u8]) -> Result<DhcpV6Duid, DhcpError>
    ensures { Gives (λ duid. duid) result
        (ok_or (duids.uuid_in bytes.now) ErrorKind.InvalidDhcpMessage) }
{
    let mut rest = Buffer::new(bytes);
    let uuid = rest.get_u128_be()?;
    if rest.remain_len() != 0 {
        return Err(DhcpError::invalid_message(FixedText::Unreadable));
    }
    Ok(DhcpV6Duid::UUID(DhcpV6DuidUuid::new(uuid)))
}
