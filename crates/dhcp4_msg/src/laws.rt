//! Laws: what is written reads back. A call does nothing.

ghost use Rattle.std.specs.Prelude.{[], ◌≡◌, ◌++◌, ℕ, List, Some, IsTrue};
ghost use Rattle.std.specs.FinMap as map;
ghost use Rattle.dhcp_wire.specs.Order.{IsRisingBy};
ghost use Rattle.dhcp_wire.specs.RawOption.{raw_options};
ghost use Rattle.dhcp_wire.specs.declared.raw_option.OptionFormat.TheVariants.{DhcpV4};
ghost use Rattle.dhcp4_msg.specs.contracts.message_type.DhcpV4MessageTypeOrd.TheImpl as types;
ghost use Rattle.dhcp4_msg.specs.contracts.route.DhcpV4ClasslessRouteOrd.TheImpl as routes;
ghost use Rattle.dhcp4_msg.specs.declared.message.DhcpV4Message.{DhcpV4Message};
ghost use Rattle.dhcp4_msg.specs.declared.option.DhcpV4Option.{DhcpV4Option};
ghost use Rattle.dhcp4_msg.specs.declared.route.DhcpV4ClasslessRoute.{DhcpV4ClasslessRoute};
ghost use Rattle.dhcp4_msg.specs.OptionCode.{code_of, number_of};
ghost use Rattle.dhcp4_msg.specs.Laws.{
  AddressWidths,
  AreInRange,
  HasWholeAddresses,
  HasWidths,
  IsExact,
  IsInRange,
  IsWhole,
  MessageIsInRange,
  MessageReadsBack,
  NumberWidths,
  options_read_back,
  ReadsBack,
  read_back,
  with_names,
};
ghost use Rattle.std.specs.List.{AllByRecursion};
ghost use Rattle.dhcp4_msg.specs.Message.{IsAtOffsets, read_message, written_message};
ghost use Rattle.dhcp4_msg.specs.MessageType.{all_types};
ghost use Rattle.dhcp4_msg.specs.Options.{last_of, option_at, read_options, written_options};
ghost use Rattle.dhcp4_msg.specs.Route.{route_at, route_order, written_route};
ghost use Rattle.dhcp4_msg.specs.Value.{fits, written_option};

use crate::{DhcpV4ClasslessRoute, DhcpV4Message, DhcpV4Option, DhcpV4Options};
use dhcp_wire::laws::{an_address_reads_back, fits_byte, fits_four_bytes, fits_two_bytes};
use std::net::Ipv4Addr;

/// The number of the code of a number is that number.
pub fn codes_read_back()
    ensures { (number : ℕ) → number_of (code_of number) ≡ number }
{}

/// Message types are ordered by number.
pub fn message_types_are_ordered_by_number()
    ensures { IsRisingBy types.ghosts.cmp all_types }
{}

/// Routes are ordered by destination, then by the length of the prefix, then by router.
pub fn routes_are_ordered_by_destination()
    ensures { (first second : DhcpV4ClasslessRoute)
        → routes.ghosts.cmp first second ≡ route_order first second }
{}

/// A route whose addresses have four octets, and whose octets that its width does not cover are
/// zero, reads back, whatever follows it; and what reads as a route is written as the same bytes.
pub fn routes_read_back()
    ensures back { (route : DhcpV4ClasslessRoute) (rest : List ℕ) → IsExact route
        → route_at (written_route route ++ rest) ≡ Some (route, rest) }
    ensures again { (bytes rest : List ℕ) (route : DhcpV4ClasslessRoute)
        → route_at bytes ≡ Some (route, rest)
        → bytes ≡ written_route route ++ rest }
{}

/// An option that fits reads back, whatever follows it, if its numbers have their widths and its
/// addresses four octets, its text is UTF-8 of at most 254 bytes without a zero byte, and its
/// routes have no octets beyond their lengths. The codes that it requests read under their names.
pub fn options_read_back()
    ensures { (option : DhcpV4Option) (rest : List ℕ) → IsTrue (fits option) → ReadsBack option
        → option_at (written_option option ++ rest) ≡ (Some (with_names option), rest) }
{}

/// What was read from a list has under a number the last option of that number that has a reading:
/// none if and only if no such option does.
pub fn last_option_counts()
    ensures { (bytes : List ℕ) (number : ℕ)
        → map.get (read_options bytes) number ≡ last_of number (raw_options DhcpV4 bytes) }
{}

/// A message that reads has at least 240 bytes, the cookie at byte 236, each field at its offset,
/// RFC 2131 section 2, and its options from byte 240 on.
pub fn fields_are_at_offsets()
    ensures { (bytes : List ℕ) (message : DhcpV4Message)
        → read_message bytes ≡ Some message → IsAtOffsets bytes message }
{}

/// A message reads back if its numbers have their widths, its addresses four octets and its
/// hardware address sixteen bytes, its texts fit their fields, and each of its options is under its
/// own number, a byte, fits and has a value that reads back. The codes that it requests read under
/// their names, and End is added to its options.
pub fn messages_read_back()
    ensures { (message : DhcpV4Message) → MessageReadsBack message
        → read_message (written_message message) ≡ Some (read_back message) }
{}

/// An option that a caller holds reads back, whatever follows it, if it fits and its text or its
/// routes are in range. The codes that it requests read under their names.
pub fn option_reads_back(option: &DhcpV4Option)
    ensures alone { IsTrue (fits option.now) → IsInRange option.now
        → option_at (written_option option.now) ≡ (Some (with_names option.now), []) }
    ensures before { (rest : List ℕ) → IsTrue (fits option.now) → IsInRange option.now
        → option_at (written_option option.now ++ rest) ≡ (Some (with_names option.now), rest) }
{
    option_widths(option);
}

/// Options that a caller holds read back as they are written, whatever follows their End, if their
/// texts and routes are in range. End is added.
pub fn option_list_reads_back(options: &DhcpV4Options)
    ensures alone { AreInRange options.now
        → read_options (written_options options.now) ≡ options_read_back options.now }
    ensures before { (rest : List ℕ) → AreInRange options.now
        → read_options (written_options options.now ++ rest) ≡ options_read_back options.now }
{
    options.stand();
}

/// A message that a caller holds reads back as it is written, whatever follows its End, if its
/// texts and routes are in range. End is added to its options.
pub fn message_reads_back(message: &DhcpV4Message)
    ensures alone { MessageIsInRange message.now
        → read_message (written_message message.now) ≡ Some (read_back message.now) }
    ensures before { (rest : List ℕ) → MessageIsInRange message.now
        → read_message (written_message message.now ++ rest) ≡ Some (read_back message.now) }
{
    number_widths(message);
    address_widths(message);
    message.options.stand();
}

// The numbers of a message have their widths.
fn number_widths(message: &DhcpV4Message)
    ensures { NumberWidths message.now }
{
    fits_byte(message.op);
    fits_byte(message.htype);
    fits_byte(message.hlen);
    fits_byte(message.hops);
    fits_four_bytes(message.xid);
    fits_two_bytes(message.secs);
    fits_two_bytes(message.flags);
}

// The addresses of a message are whole.
fn address_widths(message: &DhcpV4Message)
    ensures { AddressWidths message.now }
{
    address_is_whole(message.ciaddr);
    address_is_whole(message.yiaddr);
    address_is_whole(message.siaddr);
    address_is_whole(message.giaddr);
    let _chaddr = message.chaddr;
}

// The numbers of an option have their widths, and its addresses are whole.
#[tactic(auto, unfolding(crate::specs::Laws::HasWidths))]
pub(crate) fn option_widths(option: &DhcpV4Option)
    ensures { HasWidths option.now }
{
    match option {
        DhcpV4Option::SubnetMask(address)
        | DhcpV4Option::BroadcastAddress(address)
        | DhcpV4Option::RequestedIpAddress(address)
        | DhcpV4Option::ServerIdentifier(address) => address_is_whole(*address),
        DhcpV4Option::Router(addresses)
        | DhcpV4Option::DomainNameServer(addresses)
        | DhcpV4Option::NtpServers(addresses) => addresses_are_whole(addresses.as_slice()),
        DhcpV4Option::InterfaceMtu(size) => fits_two_bytes(*size),
        DhcpV4Option::IpAddressLeaseTime(seconds)
        | DhcpV4Option::RenewalTime(seconds)
        | DhcpV4Option::RebindingTime(seconds) => fits_four_bytes(*seconds),
        DhcpV4Option::ClasslessStaticRoute(routes) => routes_are_whole(routes.as_slice()),
        _ => {}
    }
}

// An address has four octets.
fn address_is_whole(address: Ipv4Addr)
    ensures { IsWhole address }
{
    an_address_reads_back(address);
}

// Each address of a list has four octets.
fn addresses_are_whole(addresses: &[Ipv4Addr])
    ensures { AllByRecursion IsWhole addresses.now }
{
    for address in addresses {
        address_is_whole(*address);
    }
}

// Both addresses of each route have four octets.
fn routes_are_whole(routes: &[DhcpV4ClasslessRoute])
    ensures { AllByRecursion HasWholeAddresses routes.now }
{
    for route in routes {
        address_is_whole(route.destination);
        address_is_whole(route.router);
    }
}
