//! Fields with a decimal number or an IPv4 address.

ghost use Rattle.std.specs.Prelude.{◌≡◌, ◌≢◌, ◌≤◌, ◌↔◌, IsTrue, length, slice_index};
ghost use Rattle.std.specs.Fmt.{decimal};
ghost use Rattle.std.specs.Net.Addr.{IsIpv4Addr};
ghost use Rattle.dhcp_stream.specs.Number.{address_text};
ghost use Rattle.dhcp_stream.specs.Reading.{IsReading};

use std::net::Ipv4Addr;

/// The number of a field of decimal digits without a leading zero, at most `max`. None if and only
/// if the field is not of this form. Does not allocate.
pub fn number_field(field: &[u8], max: u64) -> Option<u64>
    ensures { IsReading decimal (λ number. number ≤ max) result field.now }
{
    if !begins_plainly(field) {
        return None;
    }
    let Ok(text) = std::str::from_utf8(field) else {
        return None;
    };
    let Ok(number) = text.parse::<u64>() else {
        return None;
    };
    if number <= max { Some(number) } else { None }
}

// Whether a field begins with neither a plus sign nor a zero before other digits.
fn begins_plainly(field: &[u8]) -> bool
    ensures { IsTrue result ↔ ((slice_index field.now 0 ≢ 43)
        × (slice_index field.now 0 ≡ 48 → length field.now ≡ 1)) }
{
    match field {
        [b'0'] => true,
        [b'0' | b'+', ..] => false,
        _ => true,
    }
}

/// The address of a field of four decimal numbers up to 255, without leading zeros and with dots
/// between them. None if and only if the field is not of this form. Does not allocate.
pub fn ipv4_field(field: &[u8]) -> Option<Ipv4Addr>
    ensures { IsReading address_text IsIpv4Addr result field.now }
{
    Ipv4Addr::parse_ascii(field).ok()
}
