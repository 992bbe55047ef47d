//! The messages that a client sends, RFC 2131 section 4.3 and tables 4 and 5: one row for each. Two
//! of them depend on the forms of the configuration, and so does option 61.

ghost use Rattle.std.specs.Prelude.{◌≡◌, ◌++◌, IsTrue, replicate};
ghost use Rattle.dhcp_wire.specs.Outcome.{Makes};
ghost use Rattle.dhcp4_msg.specs.Options.{Adds};
ghost use Rattle.dhcp4_msg.specs.Value.{fits};
ghost use Rattle.dhcp4_msg.specs.declared.option.DhcpV4Option.TheVariants.{ClientIdentifier};
ghost use Rattle.dhcp4_lease.specs.Config.{is_within_limits};
ghost use Rattle.dhcp4_lease.specs.MessageTable as table;
ghost use Rattle.dhcp4_lease.specs.MessageTable.{table_message};

use crate::{DhcpV4Config, DhcpV4Lease, DhcpV4MessageForms};
use dhcp_wire::{Bytes, DhcpError, Text};
use dhcp4_msg::{DhcpV4Message, DhcpV4MessageType, DhcpV4Option, DhcpV4Options};
use std::alloc::Global;
use std::net::Ipv4Addr;

// How many options a message of a client has at most.
const MOST_OPTIONS: usize = 6;

/// The Discover that searches for servers, with this transaction id (RFC 2131, section 4.4.1). The
/// configuration is within its limits, as `is_within_limits` tests. Out of memory is the only
/// error.
pub fn new_discovery(
    alloc: Global,
    xid: u32,
    config: &DhcpV4Config,
) -> Result<DhcpV4Message, DhcpError>
    requires { IsTrue (is_within_limits config.now) }
    ensures { Makes (λ message. message) result (table_message xid config.now table.discover) }
{
    message_of(alloc, xid, config, Row::discover())
}

/// The Request of the lease of an offer, in state SELECTING (RFC 2131, section 4.3.2). The
/// configuration is within its limits. Out of memory is the only error.
pub fn new_request(
    alloc: Global,
    xid: u32,
    config: &DhcpV4Config,
    lease: &DhcpV4Lease,
) -> Result<DhcpV4Message, DhcpError>
    requires { IsTrue (is_within_limits config.now) }
    ensures { Makes (λ message. message) result
        (table_message xid config.now (table.request lease.now)) }
{
    message_of(alloc, xid, config, Row::request(lease))
}

/// The Request of a lease that the client held before, in state INIT-REBOOT: it names the address
/// and no server (RFC 2131, section 4.3.2). The configuration is within its limits. Out of memory
/// is the only error.
pub fn new_reboot_request(
    alloc: Global,
    xid: u32,
    config: &DhcpV4Config,
    lease: &DhcpV4Lease,
) -> Result<DhcpV4Message, DhcpError>
    requires { IsTrue (is_within_limits config.now) }
    ensures { Makes (λ message. message) result
        (table_message xid config.now (table.reboot lease.now)) }
{
    message_of(alloc, xid, config, Row::reboot(lease))
}

/// The Request that renews a lease that is held, from T1 on (RFC 2131, section 4.4.5). By the forms
/// of `Rfc2131` it has neither option 50 nor option 54; by those of `Mozim` it has both. The
/// configuration is within its limits. Out of memory is the only error.
pub fn new_renew(
    alloc: Global,
    xid: u32,
    config: &DhcpV4Config,
    lease: &DhcpV4Lease,
) -> Result<DhcpV4Message, DhcpError>
    requires { IsTrue (is_within_limits config.now) }
    ensures { Makes (λ message. message) result
        (table_message xid config.now (table.extend config.now.message_forms lease.now)) }
{
    message_of(alloc, xid, config, Row::extend(config.message_forms, lease))
}

/// The Request that rebinds a lease that is held, from T2 on: the same message as to renew it (RFC
/// 2131, section 4.4.5). The configuration is within its limits. Out of memory is the only error.
pub fn new_rebind(
    alloc: Global,
    xid: u32,
    config: &DhcpV4Config,
    lease: &DhcpV4Lease,
) -> Result<DhcpV4Message, DhcpError>
    requires { IsTrue (is_within_limits config.now) }
    ensures { Makes (λ message. message) result
        (table_message xid config.now (table.extend config.now.message_forms lease.now)) }
{
    message_of(alloc, xid, config, Row::extend(config.message_forms, lease))
}

/// The Release of a lease that is held (RFC 2131, section 4.4.6). By the forms of `Rfc2131` its
/// address is `ciaddr`; by those of `Mozim` it is option 50. The configuration is within its
/// limits. Out of memory is the only error.
pub fn new_release(
    alloc: Global,
    xid: u32,
    config: &DhcpV4Config,
    lease: &DhcpV4Lease,
) -> Result<DhcpV4Message, DhcpError>
    requires { IsTrue (is_within_limits config.now) }
    ensures { Makes (λ message. message) result
        (table_message xid config.now (table.release config.now.message_forms lease.now)) }
{
    message_of(
        alloc,
        xid,
        config,
        Row::release(config.message_forms, lease),
    )
}

/// What the messages of a client differ in.
#[derive(Clone, Copy)]
pub struct Row {
    /// The type of the message, option 53.
    pub message_type: DhcpV4MessageType,
    /// The client's own address, in a Request that renews or rebinds, and by the forms of `Rfc2131`
    /// in a Release; 0.0.0.0 in any other message.
    pub ciaddr: Ipv4Addr,
    /// The address that is requested or released, option 50.
    pub requested: Option<Ipv4Addr>,
    /// The server identifier, option 54.
    pub server: Option<Ipv4Addr>,
}

impl Row {
    // The search for servers.
    fn discover() -> Row
        ensures { result ≡ table.discover }
    {
        Row {
            message_type: DhcpV4MessageType::Discovery,
            ciaddr: Ipv4Addr::UNSPECIFIED,
            requested: None,
            server: None,
        }
    }

    // The request of the lease of an offer.
    fn request(offer: &DhcpV4Lease) -> Row
        ensures { result ≡ table.request offer.now }
    {
        Row {
            message_type: DhcpV4MessageType::Request,
            ciaddr: Ipv4Addr::UNSPECIFIED,
            requested: Some(offer.yiaddr),
            server: Some(server_of(offer)),
        }
    }

    // The request of a lease that was held before a reboot.
    fn reboot(held: &DhcpV4Lease) -> Row
        ensures { result ≡ table.reboot held.now }
    {
        Row {
            message_type: DhcpV4MessageType::Request,
            ciaddr: Ipv4Addr::UNSPECIFIED,
            requested: Some(held.yiaddr),
            server: None,
        }
    }

    // The request to renew or to rebind a lease that is held.
    fn extend(forms: DhcpV4MessageForms, held: &DhcpV4Lease) -> Row
        ensures { result ≡ table.extend forms held.now }
    {
        let (requested, server) = match forms {
            DhcpV4MessageForms::Mozim => (Some(held.yiaddr), Some(server_of(held))),
            DhcpV4MessageForms::Rfc2131 => (None, None),
        };
        Row {
            message_type: DhcpV4MessageType::Request,
            ciaddr: held.yiaddr,
            requested,
            server,
        }
    }

    // The release of a lease.
    fn release(forms: DhcpV4MessageForms, held: &DhcpV4Lease) -> Row
        ensures { result ≡ table.release forms held.now }
    {
        let (ciaddr, requested) = match forms {
            DhcpV4MessageForms::Mozim => (Ipv4Addr::UNSPECIFIED, Some(held.yiaddr)),
            DhcpV4MessageForms::Rfc2131 => (held.yiaddr, None),
        };
        Row {
            message_type: DhcpV4MessageType::Release,
            ciaddr,
            requested,
            server: Some(server_of(held)),
        }
    }
}

/// The server of a lease: its identifier, or the next server, `siaddr`, if that is unspecified.
pub fn server_of(lease: &DhcpV4Lease) -> Ipv4Addr
    ensures { result ≡ table.server_of lease.now }
{
    if lease.srv_id.is_unspecified() {
        lease.siaddr
    } else {
        lease.srv_id
    }
}

// The message of a row.
fn message_of(
    alloc: Global,
    xid: u32,
    config: &DhcpV4Config,
    row: Row,
) -> Result<DhcpV4Message, DhcpError>
    requires { IsTrue (is_within_limits config.now) }
    ensures { Makes (λ message. message) result (table_message xid config.now row) }
{
    let mut message = DhcpV4Message::empty(alloc);
    message.xid = xid;
    message.ciaddr = row.ciaddr;
    message.chaddr = hardware_address(config.src_mac);
    add_options(&mut message.options, alloc, config, row)?;
    Ok(message)
}

// A MAC address in the field of sixteen bytes, chaddr.
fn hardware_address(mac: [u8; 6]) -> [u8; 16]
    ensures { result ≡ mac ++ replicate 10 0 }
{
    let mut field = [0; 16];
    field[..6].copy_from_slice(&mac);
    field
}

// Adds the options of a row.
#[tactic(auto, using(crate::proofs::OptionLemmas::fitting))]
fn add_options(
    options: &mut DhcpV4Options,
    alloc: Global,
    config: &DhcpV4Config,
    row: Row,
) -> Result<(), DhcpError>
    requires { IsTrue (is_within_limits config.now) }
    ensures { Adds result options.old options.new (table.options_of config.now row) }
{
    options.reserve(MOST_OPTIONS)?;
    add_host_name(options, config.host_name.try_clone(alloc)?)?;
    add_requested(options, row.requested)?;
    options.insert(DhcpV4Option::MessageType(row.message_type))?;
    add_server(options, row.server)?;
    options.insert(DhcpV4Option::ParameterRequestList(config.request_opts.try_clone(alloc)?))?;
    add_client(
        options,
        config.message_forms,
        config.client_id.try_clone(alloc)?,
    )
}

// Adds option 12, if there is a host name.
#[tactic(auto, using(crate::proofs::OptionLemmas::host_name_fits))]
fn add_host_name(options: &mut DhcpV4Options, host_name: Text) -> Result<(), DhcpError>
    ensures { Adds result options.old options.new (table.host_name_option host_name) }
{
    if host_name.is_empty() {
        return Ok(());
    }
    options.insert(DhcpV4Option::HostName(host_name))
}

// Adds option 50, if an address is requested.
#[tactic(auto, unfolding(dhcp4_msg::specs::Value::fits, dhcp4_msg::specs::Value::written_value))]
fn add_requested(options: &mut DhcpV4Options, requested: Option<Ipv4Addr>) -> Result<(), DhcpError>
    ensures { Adds result options.old options.new (table.requested_option requested) }
{
    match requested {
        Some(address) => options.insert(DhcpV4Option::RequestedIpAddress(address)),
        None => Ok(()),
    }
}

// Adds option 54, if a server is named.
#[tactic(auto, unfolding(dhcp4_msg::specs::Value::fits, dhcp4_msg::specs::Value::written_value))]
fn add_server(options: &mut DhcpV4Options, server: Option<Ipv4Addr>) -> Result<(), DhcpError>
    ensures { Adds result options.old options.new (table.server_option server) }
{
    match server {
        Some(address) => options.insert(DhcpV4Option::ServerIdentifier(address)),
        None => Ok(()),
    }
}

// Adds option 61; by the forms of RFC 2131 only if there is an identifier.
fn add_client(
    options: &mut DhcpV4Options,
    forms: DhcpV4MessageForms,
    client_id: Bytes,
) -> Result<(), DhcpError>
    requires { IsTrue (fits (ClientIdentifier client_id)) }
    ensures { Adds result options.old options.new (table.client_option forms client_id) }
{
    if forms == DhcpV4MessageForms::Rfc2131 && client_id.is_empty() {
        return Ok(());
    }
    options.insert(DhcpV4Option::ClientIdentifier(client_id))
}
