//! The values of every script fit their types: numbers have their widths, addresses are whole,
//! texts are UTF-8. A call does nothing.

ghost use Rattle.std.specs.Prelude.{◌<◌, ◌^◌, All, IfSome};
ghost use Rattle.std.specs.Int.{w16};
ghost use Rattle.std.specs.Net.Addr.{IsIpv4Addr, IsIpv6Addr};
ghost use Rattle.hex.specs.Hex.{IsBytes};
ghost use Rattle.dhcp_stream.specs.HexText.{AreOfWidth, AreWords, IsMac, IsText};
ghost use Rattle.dhcp_script.specs.Event.{packet_of};
ghost use Rattle.dhcp_script.specs.Lease4.{IsLease4, IsRoute};
ghost use Rattle.dhcp_script.specs.Lease6.{IsLease6};
ghost use Rattle.dhcp_script.specs.Life.{IsEvent, IsLife};
ghost use Rattle.dhcp_script.specs.Script.{IsScript};
ghost use Rattle.dhcp_script.specs.Script4.{IsScript4};
ghost use Rattle.dhcp_script.specs.Script6.{IsMode, IsScript6};
ghost use Rattle.dhcp_script.specs.declared.version.Version.TheVariants.{Later};

use crate::{Event, EventWhat, Lease4, Lease6, Script, Script4, Script6};
use dhcp_wire::laws::{
    an_address_reads_back, an_ipv6_address_reads_back, fits_byte, fits_four_bytes, fits_two_bytes,
    has_six_bytes,
};
use dhcp_wire::{Bytes, Sequence, Text};
use dhcp4_msg::DhcpV4ClasslessRoute;
use dhcp6_msg::DhcpV6Mode;
use std::net::{Ipv4Addr, Ipv6Addr};

// A type whose values fit it.
pub(crate) trait Widths {
    // That a value fits the type.
    ghost fits: { Self → Type 0 };

    // Each value fits.
    fn widths(&self)
        ensures { fits self.now };
}

// Each item of a list fits,
fn all_fit<T: Widths>(items: &[T])
    ensures { All T.fits items.now }
{
    for item in items {
        item.widths();
    }
}

// and so does a value that is there,
fn fits_if_some<T: Widths>(item: &Option<T>)
    ensures { IfSome item.now T.fits }
{
    if let Some(item) = item {
        item.widths();
    }
}

// and each item of a list that is there.
fn all_fit_if_some<T: Widths>(items: &Option<Sequence<T>>)
    ensures { IfSome items.now (All T.fits) }
{
    if let Some(items) = items {
        all_fit(items.as_slice());
    }
}

// Each number of a list of bytes is a byte.
fn are_bytes(bytes: &[u8])
    ensures { IsBytes bytes.now }
{}

// Each number of a list of u16 has two bytes.
fn are_two_bytes(numbers: &[u16])
    ensures { AreOfWidth w16 numbers.now }
{}

// Each word of a list has four bytes.
fn are_words(words: &[u32])
    ensures { AreWords words.now }
{}

// A number of eight bytes is below 2^64.
fn fits_eight_bytes(number: u64)
    ensures { number < 2 ^ 64 }
{}

// The bytes of a list that is there are bytes.
fn are_bytes_if_some(bytes: &Option<Bytes>)
    ensures { IfSome bytes.now IsBytes }
{
    if let Some(bytes) = bytes {
        are_bytes(bytes.as_slice());
    }
}

// Each number of a list of u16 that is there has two bytes.
fn are_two_bytes_if_some(numbers: &Option<Sequence<u16>>)
    ensures { IfSome numbers.now (AreOfWidth w16) }
{
    if let Some(numbers) = numbers {
        are_two_bytes(numbers.as_slice());
    }
}

// A MAC address has six bytes.
fn is_mac(mac: &[u8; 6])
    ensures { IsMac mac.now }
{
    has_six_bytes(*mac);
    are_bytes(mac);
}

// So has one that is there.
fn is_mac_if_some(mac: &Option<[u8; 6]>)
    ensures { IfSome mac.now IsMac }
{
    if let Some(mac) = mac {
        is_mac(mac);
    }
}

// The words, the start and the events of a script fit their types.
fn is_life(words: &Sequence<u32>, start: u64, events: &Sequence<Event>)
    ensures { IsLife words.now start events.now }
{
    are_words(words.as_slice());
    fits_eight_bytes(start);
    all_fit(events.as_slice());
}

impl Widths for u16 {
    ghost fits = { λ number. number < 2 ^ 16 };

    fn widths(&self) {
        fits_two_bytes(*self);
    }
}

impl Widths for Ipv4Addr {
    ghost fits = { IsIpv4Addr };

    fn widths(&self) {
        an_address_reads_back(*self);
    }
}

impl Widths for Ipv6Addr {
    ghost fits = { IsIpv6Addr };

    fn widths(&self) {
        an_ipv6_address_reads_back(*self);
    }
}

impl Widths for Text {
    ghost fits = { IsText };

    fn widths(&self) {
        are_bytes(self.as_str().as_bytes());
    }
}

impl Widths for DhcpV4ClasslessRoute {
    ghost fits = { IsRoute };

    fn widths(&self) {
        self.destination.widths();
        fits_byte(self.prefix_length);
        self.router.widths();
    }
}

impl Widths for DhcpV6Mode {
    ghost fits = { IsMode };

    fn widths(&self) {
        if let DhcpV6Mode::PrefixDelegation(len) = self {
            fits_byte(*len);
        }
    }
}

impl Widths for EventWhat {
    ghost fits = { λ what. IsBytes (packet_of what) };

    fn widths(&self) {
        match self {
            EventWhat::Frame(bytes) | EventWhat::Payload(bytes) => are_bytes(bytes.as_slice()),
            EventWhat::Nothing | EventWhat::Release | EventWhat::CleanUp => are_bytes(&[]),
        }
    }
}

impl Widths for Event {
    ghost fits = { IsEvent };

    fn widths(&self) {
        fits_eight_bytes(self.moment);
        self.what.widths();
    }
}

impl Widths for Lease4 {
    ghost fits = { IsLease4 };

    fn widths(&self) {
        self.yiaddr.widths();
        self.siaddr.widths();
        self.srv_id.widths();
        fits_four_bytes(self.t1_sec);
        fits_four_bytes(self.t2_sec);
        fits_four_bytes(self.lease_time_sec);
        self.subnet_mask.widths();
        fits_if_some(&self.broadcast_addr);
        fits_if_some(&self.mtu);
        all_fit_if_some(&self.dns_srvs);
        all_fit_if_some(&self.gateways);
        all_fit_if_some(&self.ntp_srvs);
        fits_if_some(&self.host_name);
        fits_if_some(&self.domain_name);
        all_fit_if_some(&self.classless_routes);
    }
}

impl Widths for Lease6 {
    ghost fits = { IsLease6 };

    fn widths(&self) {
        fits_four_bytes(self.iaid);
        self.address.widths();
        fits_byte(self.prefix_len);
        are_bytes(self.srv_duid.as_slice());
        fits_four_bytes(self.t1_sec);
        fits_four_bytes(self.t2_sec);
        fits_four_bytes(self.preferred_time_sec);
        fits_four_bytes(self.valid_time_sec);
        fits_four_bytes(self.xid);
        are_bytes(self.cli_duid.as_slice());
        self.srv_ip.widths();
    }
}

impl Widths for Script4 {
    ghost fits = { IsScript4 Later };

    fn widths(&self) {
        fits_four_bytes(self.iface_index);
        is_mac(&self.mac);
        fits_four_bytes(self.timeout_sec);
        are_bytes(self.host.as_slice());
        are_bytes(self.client.as_slice());
        are_bytes_if_some(&self.codes);
        fits_if_some(&self.lease);
        is_life(&self.words, self.start, &self.events);
    }
}

impl Widths for Script6 {
    ghost fits = { IsScript6 Later };

    fn widths(&self) {
        fits_four_bytes(self.iface_index);
        self.src_ip.widths();
        is_mac_if_some(&self.mac);
        self.mode.widths();
        fits_four_bytes(self.timeout_sec);
        are_bytes(self.duid.as_slice());
        are_two_bytes_if_some(&self.codes);
        fits_if_some(&self.lease);
        is_life(&self.words, self.start, &self.events);
    }
}

impl Widths for Script {
    ghost fits = { IsScript };

    fn widths(&self) {
        match self {
            Script::V4(script) => script.widths(),
            Script::V6(script) => script.widths(),
        }
    }
}
