//! Statuses: the status code option, RFC 8415 section 21.13.

ghost use Rattle.std.specs.Prelude.{◌≡◌, ◌+◌, ◌^◌, ◌≤◌, Some, length, ok_or};
ghost use Rattle.dhcp_wire.specs.Outcome.{Gives, Makes};
ghost use Rattle.dhcp6_opt.specs.Status.{is_no_failure, status_after, status_in, status_name, status_number, status_of, written_status, written_status_option};

use crate::written::Written;
use dhcp_wire::{
    Buffer, BufferMut, DhcpError, ErrorKind, FixedText, OptionFormat, Text, TryClone, whole_text_in,
};
use std::alloc::Global;
use std::fmt;

// The code of the status code option.
pub(crate) const STATUS_CODE: u16 = 13;

/// A status code: a name for the seven of RFC 8415 section 21.13, else its number. Codes are
/// ordered as they stand here, and other numbers by number.
#[derive(Clone, Copy, Debug, PartialEq, Eq, PartialOrd, Ord, Hash)]
pub enum DhcpV6OptionStatusCode {
    /// 0: the action succeeded.
    Success,
    /// 1: it failed for a reason that is not said.
    UnspecFail,
    /// 2: the server has no addresses for the identity associations.
    NoAddrsAvail,
    /// 3: the server has no record of the binding.
    NoBinding,
    /// 4: the prefix of an address is not that of the client's link.
    NotOnLink,
    /// 5: the client is to send to the group address of servers and relay agents.
    UseMulticast,
    /// 6: the server has no prefixes for the identity associations.
    NoPrefixAvail,
    /// Any other number.
    Other(u16),
}

impl From<u16> for DhcpV6OptionStatusCode {
    ghost from_gives = { λ number code. code ≡ status_of number };

    #[tactic(auto, unfolding(crate::specs::Status::status_of, crate::specs::Status::status_number))]
    fn from(d: u16) -> Self {
        match d {
            0 => DhcpV6OptionStatusCode::Success,
            1 => DhcpV6OptionStatusCode::UnspecFail,
            2 => DhcpV6OptionStatusCode::NoAddrsAvail,
            3 => DhcpV6OptionStatusCode::NoBinding,
            4 => DhcpV6OptionStatusCode::NotOnLink,
            5 => DhcpV6OptionStatusCode::UseMulticast,
            6 => DhcpV6OptionStatusCode::NoPrefixAvail,
            _ => DhcpV6OptionStatusCode::Other(d),
        }
    }
}

impl From<DhcpV6OptionStatusCode> for u16 {
    ghost from_gives = { λ code number. number ≡ status_number code };

    #[tactic(auto, unfolding(crate::specs::Status::status_number))]
    fn from(code: DhcpV6OptionStatusCode) -> u16 {
        match code {
            DhcpV6OptionStatusCode::Success => 0,
            DhcpV6OptionStatusCode::UnspecFail => 1,
            DhcpV6OptionStatusCode::NoAddrsAvail => 2,
            DhcpV6OptionStatusCode::NoBinding => 3,
            DhcpV6OptionStatusCode::NotOnLink => 4,
            DhcpV6OptionStatusCode::UseMulticast => 5,
            DhcpV6OptionStatusCode::NoPrefixAvail => 6,
            DhcpV6OptionStatusCode::Other(number) => number,
        }
    }
}

impl fmt::Display for DhcpV6OptionStatusCode {
    ghost output = { λ code. Some (status_name code) };

    #[tactic(auto, unfolding(crate::specs::Status::status_name))]
    fn fmt<W: fmt::Write>(&self, f: &mut fmt::Formatter<W>) -> fmt::Result {
        f.write_str(match self {
            DhcpV6OptionStatusCode::Success => "success",
            DhcpV6OptionStatusCode::UnspecFail => "unspec_fail",
            DhcpV6OptionStatusCode::NoAddrsAvail => "no_addrs_avail",
            DhcpV6OptionStatusCode::NoBinding => "no_binding",
            DhcpV6OptionStatusCode::NotOnLink => "not_on_link",
            DhcpV6OptionStatusCode::UseMulticast => "use_multicast",
            DhcpV6OptionStatusCode::NoPrefixAvail => "no_prefix_avail",
            DhcpV6OptionStatusCode::Other(number) => return write!(f, "other({number})"),
        })
    }
}

/// A status: a code, and a text for people. RFC 8415 section 21.13.
#[derive(Debug, Drop, PartialEq, Eq, PartialOrd, Ord)]
pub struct DhcpV6OptionStatus {
    /// The status code.
    pub status: DhcpV6OptionStatusCode,
    /// The text, which may be empty.
    pub message: Text,
}

impl DhcpV6OptionStatus {
    // The status of an option's value. `InvalidDhcpMessage` if and only if it has fewer than two
    // bytes, or its text is not UTF-8.
    #[tactic(auto, unfolding(crate::specs::Status::status_in))]
    pub(crate) fn parse(alloc: Global, value: &[u8]) -> Result<Self, DhcpError>
        ensures { Gives (λ status. status) result
            (ok_or (status_in value.now) ErrorKind.InvalidDhcpMessage) }
    {
        let mut rest = Buffer::new(value);
        let status = DhcpV6OptionStatusCode::from(rest.get_u16_be()?);
        let message = whole_text_in(alloc, rest.get_remains())?;
        Ok(DhcpV6OptionStatus { status, message })
    }

    /// A copy; out of memory is the only error.
    pub fn try_clone(&self, alloc: Global) -> Result<Self, DhcpError>
        ensures { Makes (λ made. made) result self.now }
    {
        Ok(DhcpV6OptionStatus {
            status: self.status,
            message: self.message.try_clone(alloc)?,
        })
    }
}

impl Written for DhcpV6OptionStatus {
    ghost written = { written_status };

    // The code, and the text.
    #[tactic(auto, unfolding(crate::specs::Status::written_status))]
    fn written_len(&self) -> usize
        ensures value { result ≡ length (written_status self.now) }
        ensures few { result ≤ 2 ^ 63 + 1 }
    {
        2 + self.message.as_str().len()
    }

    #[tactic(auto, unfolding(crate::specs::Status::written_status))]
    fn emit(&self, buf: &mut BufferMut) -> Result<(), DhcpError> {
        buf.write_u16_be(u16::from(self.status))?;
        buf.write_string_without_null(self.message.as_str())
    }
}

// The status after the fixed part of an address or a prefix: none where nothing follows, else that
// of the option at the front. `InvalidDhcpMessage` if and only if that is not a whole status option
// that reads.
#[tactic(auto, unfolding(crate::specs::Status::status_after))]
pub(crate) fn status_after(
    alloc: Global,
    bytes: &[u8],
) -> Result<Option<DhcpV6OptionStatus>, DhcpError>
    ensures { Gives (λ status. status) result
        (ok_or (status_after bytes.now) ErrorKind.InvalidDhcpMessage) }
{
    if bytes.is_empty() {
        return Ok(None);
    }
    match OptionFormat::DhcpV6.raw_option_at(bytes) {
        Some((raw, _)) if raw.code == STATUS_CODE => {
            DhcpV6OptionStatus::parse(alloc, raw.value).map(Some)
        }
        _ => Err(DhcpError::invalid_message(FixedText::Unreadable)),
    }
}

// How many bytes the option of a status is written in; 0 if there is no status.
#[tactic(auto, using(crate::proofs::option_len))]
pub(crate) fn status_len(status: &Option<DhcpV6OptionStatus>) -> usize
    ensures value { result ≡ length (written_status_option status.now) }
    ensures few { result ≤ 2 ^ 63 + 5 }
{
    match status {
        Some(status) => 4 + status.written_len(),
        None => 0,
    }
}

// Whether a status is absent or says success.
pub(crate) fn is_no_failure(status: &Option<DhcpV6OptionStatus>) -> bool
    ensures { result ≡ is_no_failure status.now }
{
    match status {
        Some(status) => status.status == DhcpV6OptionStatusCode::Success,
        None => true,
    }
}

impl TryClone for DhcpV6OptionStatus {
    fn try_clone(&self, alloc: Global) -> Result<Self, DhcpError> {
        DhcpV6OptionStatus::try_clone(self, alloc)
    }
}
