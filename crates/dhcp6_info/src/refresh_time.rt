//! The Information Refresh Time option, RFC 8415 section 21.23.

ghost use Rattle.std.specs.Prelude.{◌≡◌, drop};
ghost use Rattle.dhcp_wire.specs.RawOption.{raw_options};
ghost use Rattle.dhcp_wire.specs.declared.raw_option.OptionFormat.{OptionFormat};
ghost use Rattle.dhcp6_opt.specs.RawOption.{parts_of};
ghost use Rattle.dhcp6_info.specs.Info as infos;

use dhcp_wire::{OptionFormat, RawOption, RawOptions, u32_in};

/// The code of the option. RFC 8415 section 21.23.
pub const REFRESH_TIME: u16 = 32;

/// The least refresh time, in seconds. RFC 8415 section 7.6.
const IRT_MINIMUM: u32 = 600;

/// The refresh time of a Reply that says none, in seconds. RFC 8415 section 7.6.
const IRT_DEFAULT: u32 = 86_400;

// How many bytes of a message stand before its options: its type and its transaction id.
const HEADER_LEN: usize = 4;

/// The refresh time of a message, in seconds: that of its first option with a time, but
/// IRT_MINIMUM at least; IRT_DEFAULT if there is none. A longer option is cut, and a shorter one
/// says nothing. Does not allocate.
#[tactic(auto, unfolding(crate::specs::Info::refresh_time))]
pub fn refresh_time(payload: &[u8]) -> u32
    ensures { result ≡ infos.refresh_time payload.now }
{
    match first_time(options_in(payload)) {
        Some(seconds) => seconds.max(IRT_MINIMUM),
        None => IRT_DEFAULT,
    }
}

// The bytes of the options of a message.
fn options_in(payload: &[u8]) -> &[u8]
    ensures { result.now ≡ drop 4 payload.now }
{
    payload.get(HEADER_LEN..).unwrap_or(&[])
}

// The time of the first option with one, in seconds.
fn first_time(options: &[u8]) -> Option<u32>
    ensures { result ≡ infos.first_time (raw_options OptionFormat.DhcpV6 options.now) }
{
    let mut left = RawOptions::new(OptionFormat::DhcpV6, options);
    while let Some(option) = left.next() {
        if let Some(seconds) = time_said(option) {
            return Some(seconds);
        }
    }
    None
}

// The time that an option says, in seconds.
fn time_said(option: RawOption) -> Option<u32>
    ensures { result ≡ infos.time_said (parts_of option.entry) }
{
    if option.code == REFRESH_TIME {
        u32_in(option.value).ok()
    } else {
        None
    }
}
