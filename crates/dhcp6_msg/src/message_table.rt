//! The messages that a client sends, RFC 8415 section 18.2: one row for each.

ghost use Rattle.std.specs.Prelude.{◌≡◌, ◌≤◌, IfSome, IsTrue, MatchResult, length, option_copied};
ghost use Rattle.dhcp_wire.specs.Error.{no_memory};
ghost use Rattle.dhcp_wire.specs.Outcome.{Makes};
ghost use Rattle.dhcp6_opt.specs.Duid.{written_duid};
ghost use Rattle.dhcp6_opt.specs.Ia.{written_ia_address, written_ia_prefix};
ghost use Rattle.dhcp6_opt.specs.Options.{with_options};
ghost use Rattle.dhcp6_opt.specs.Value.{fits};
ghost use Rattle.dhcp6_msg.specs.Config.{is_within_limits};
ghost use Rattle.dhcp6_msg.specs.Message.{Adds};
ghost use Rattle.dhcp6_msg.specs.MessageTable as table;
ghost use Rattle.dhcp6_msg.specs.MessageTable.{table_message};

use crate::{
    DhcpV6Config, DhcpV6IaType, DhcpV6Lease, DhcpV6Message, DhcpV6MessageType, DhcpV6Mode,
};
use dhcp_wire::laws::an_ipv6_address_reads_back;
use dhcp_wire::{DhcpError, beside};
use dhcp6_opt::{
    DhcpV6Duid, DhcpV6Option, DhcpV6OptionIaAddr, DhcpV6OptionIaNa, DhcpV6OptionIaPd,
    DhcpV6OptionIaPrefix, DhcpV6OptionIaTa, DhcpV6Options,
};
use std::alloc::Global;
use std::marker::Model;

/// The Solicit that searches for servers, with the lower 24 bits of this transaction id, the time
/// since when the client tries, in milliseconds, and this identifier of its identity association
/// (RFC 8415, section 18.2.1). The configuration is within its limits, as `is_within_limits` tests.
/// Out of memory is the only error.
pub fn new_solicit_msg(
    alloc: Global,
    xid: u32,
    config: &DhcpV6Config,
    elapsed_ms: u64,
    iaid: u32,
) -> Result<DhcpV6Message, DhcpError>
    requires { IsTrue (is_within_limits config.now) }
    ensures { Makes (λ message. message) result
        (table_message xid config.now (table.solicit config.now.mode iaid elapsed_ms)) }
{
    message_of(
        alloc,
        xid,
        config,
        Row::solicit(config.mode, iaid, elapsed_ms),
    )
}

/// The Request of the lease of an offer (RFC 8415, section 18.2.2). The configuration is within its
/// limits, and the server's identifier has at most 65,535 bytes. Out of memory is the only error.
pub fn new_request_msg(
    alloc: Global,
    xid: u32,
    config: &DhcpV6Config,
    elapsed_ms: u64,
    lease: &DhcpV6Lease,
) -> Result<DhcpV6Message, DhcpError>
    requires limits { IsTrue (is_within_limits config.now) }
    requires server { length (written_duid lease.now.srv_duid) ≤ 65535 }
    ensures { Makes (λ message. message) result
        (table_message xid config.now (table.request lease.now elapsed_ms)) }
{
    message_of(alloc, xid, config, Row::request(lease, elapsed_ms))
}

/// The Renew of a lease that is held, to the server that gave it, from T1 on (RFC 8415, section
/// 18.2.4). The configuration is within its limits, and the server's identifier has at most 65,535
/// bytes. Out of memory is the only error.
pub fn new_renew_msg(
    alloc: Global,
    xid: u32,
    config: &DhcpV6Config,
    elapsed_ms: u64,
    lease: &DhcpV6Lease,
) -> Result<DhcpV6Message, DhcpError>
    requires limits { IsTrue (is_within_limits config.now) }
    requires server { length (written_duid lease.now.srv_duid) ≤ 65535 }
    ensures { Makes (λ message. message) result
        (table_message xid config.now (table.renew lease.now elapsed_ms)) }
{
    message_of(alloc, xid, config, Row::renew(lease, elapsed_ms))
}

/// The Rebind of a lease that is held, to any server, from T2 on: it names no server (RFC 8415,
/// section 18.2.5). The configuration is within its limits. Out of memory is the only error.
pub fn new_rebind_msg(
    alloc: Global,
    xid: u32,
    config: &DhcpV6Config,
    elapsed_ms: u64,
    lease: &DhcpV6Lease,
) -> Result<DhcpV6Message, DhcpError>
    requires { IsTrue (is_within_limits config.now) }
    ensures { Makes (λ message. message) result
        (table_message xid config.now (table.rebind lease.now elapsed_ms)) }
{
    message_of(alloc, xid, config, Row::rebind(lease, elapsed_ms))
}

/// The Release of a lease that is held: it asks for no options, and its elapsed time is 0 (RFC
/// 8415, section 18.2.7). The configuration is within its limits, and the server's identifier has
/// at most 65,535 bytes. Out of memory is the only error.
pub fn new_release_msg(
    alloc: Global,
    xid: u32,
    config: &DhcpV6Config,
    lease: &DhcpV6Lease,
) -> Result<DhcpV6Message, DhcpError>
    requires limits { IsTrue (is_within_limits config.now) }
    requires server { length (written_duid lease.now.srv_duid) ≤ 65535 }
    ensures { Makes (λ message. message) result
        (table_message xid config.now (table.release lease.now)) }
{
    message_of(alloc, xid, config, Row::release(lease))
}

/// What the messages of a client differ in. Contracts see it as the record of its fields.
#[derive(Drop)]
struct Row<'a> {
    // The type of the message.
    msg_type: DhcpV6MessageType,
    // Since when the client tries, in milliseconds.
    elapsed_ms: u64,
    // The server's identifier, option 2.
    server: Option<&'a DhcpV6Duid>,
    // The identity association.
    association: Option<DhcpV6Option>,
    // Whether options are asked for, by option 6.
    asks: bool,
}

impl<'a> Model for Row<'a> {
    ghost use Rattle.std.specs.Coded.{codes};
    ghost use Rattle.std.specs.Prelude.{option_copied};
    ghost use Rattle.dhcp6_opt.specs.contracts.duid.DhcpV6Duid as duid;
    ghost use Rattle.dhcp6_opt.specs.contracts.option.DhcpV6Option as option;
    ghost use Rattle.dhcp6_msg.specs.MessageTable.{RowParts};

    ghost Value = { RowParts };

    ghost coded = { Prim.hlevel (codes, duid.the_row.coded, option.the_row.coded) };

    ghost view = { λ row. record {
      msg_type = row.msg_type;
      elapsed_ms = row.elapsed_ms;
      server = option_copied row.server;
      association = row.association;
      asks = row.asks;
    } };
}

impl<'a> Row<'a> {
    // The search for servers.
    fn solicit(mode: DhcpV6Mode, iaid: u32, elapsed_ms: u64) -> Self
        ensures row { result ≡ table.solicit mode iaid elapsed_ms }
        ensures fits { IfSome result.association (λ option. IsTrue (fits option)) }
    {
        Row {
            msg_type: DhcpV6MessageType::Solicit,
            elapsed_ms,
            server: None,
            association: Some(association_of_mode(mode, iaid)),
            asks: true,
        }
    }

    // The request of the lease of an offer.
    fn request(offer: &'a DhcpV6Lease, elapsed_ms: u64) -> Self
        ensures row { result ≡ table.request offer.now elapsed_ms }
        ensures fits { IfSome result.association (λ option. IsTrue (fits option)) }
    {
        Row {
            msg_type: DhcpV6MessageType::Request,
            elapsed_ms,
            server: Some(&offer.srv_duid),
            association: lease_association(offer),
            asks: true,
        }
    }

    // The request to renew a lease that is held.
    fn renew(held: &'a DhcpV6Lease, elapsed_ms: u64) -> Self
        ensures row { result ≡ table.renew held.now elapsed_ms }
        ensures fits { IfSome result.association (λ option. IsTrue (fits option)) }
    {
        Row {
            msg_type: DhcpV6MessageType::Renew,
            elapsed_ms,
            server: Some(&held.srv_duid),
            association: lease_association(held),
            asks: true,
        }
    }

    // The request to rebind a lease that is held.
    fn rebind(held: &'a DhcpV6Lease, elapsed_ms: u64) -> Self
        ensures row { result ≡ table.rebind held.now elapsed_ms }
        ensures fits { IfSome result.association (λ option. IsTrue (fits option)) }
    {
        Row {
            msg_type: DhcpV6MessageType::Rebind,
            elapsed_ms,
            server: None,
            association: lease_association(held),
            asks: true,
        }
    }

    // The release of a lease.
    fn release(held: &'a DhcpV6Lease) -> Self
        ensures row { result ≡ table.release held.now }
        ensures fits { IfSome result.association (λ option. IsTrue (fits option)) }
    {
        Row {
            msg_type: DhcpV6MessageType::Release,
            elapsed_ms: 0,
            server: Some(&held.srv_duid),
            association: lease_association(held),
            asks: false,
        }
    }
}

// The identity association that a client asks for, with this identifier.
#[tactic(auto, unfolding(crate::specs::MessageTable::association_of_mode))]
fn association_of_mode(mode: DhcpV6Mode, iaid: u32) -> DhcpV6Option
    ensures value { result ≡ table.association_of_mode mode iaid }
    ensures fits { IsTrue (fits result) }
{
    match mode {
        DhcpV6Mode::NonTemporaryAddresses => DhcpV6Option::IANA(DhcpV6OptionIaNa::empty(iaid)),
        DhcpV6Mode::TemporaryAddresses => DhcpV6Option::IATA(DhcpV6OptionIaTa::empty(iaid)),
        DhcpV6Mode::PrefixDelegation(length) => {
            DhcpV6Option::IAPD(DhcpV6OptionIaPd::new_with_hint(length, iaid))
        }
    }
}

// The identity association of a lease, if its type is known.
pub(crate) fn lease_association(lease: &DhcpV6Lease) -> Option<DhcpV6Option>
    ensures value { result ≡ table.lease_association lease.now }
    ensures fits { IfSome result (λ option. IsTrue (fits option)) }
{
    match lease.ia_type {
        Some(ia_type) => Some(association_of_type(ia_type, lease)),
        None => None,
    }
}

// The identity association of a lease, of this type.
#[tactic(auto, unfolding(crate::specs::MessageTable::association_of_type))]
fn association_of_type(ia_type: DhcpV6IaType, lease: &DhcpV6Lease) -> DhcpV6Option
    ensures value { result ≡ table.association_of_type ia_type lease.now }
    ensures fits { IsTrue (fits result) }
{
    match ia_type {
        DhcpV6IaType::NonTemporaryAddresses => DhcpV6Option::IANA(DhcpV6OptionIaNa::new(
            lease.iaid,
            lease.t1_sec,
            lease.t2_sec,
            lease_address(lease),
        )),
        DhcpV6IaType::TemporaryAddresses => {
            DhcpV6Option::IATA(DhcpV6OptionIaTa::new(lease.iaid, lease_address(lease)))
        }
        DhcpV6IaType::PrefixDelegation => DhcpV6Option::IAPD(DhcpV6OptionIaPd::new(
            lease.iaid,
            lease.t1_sec,
            lease.t2_sec,
            lease_prefix(lease),
        )),
    }
}

// The address of a lease.
#[tactic(auto, using(crate::proofs::AssociationLemmas::length_of_address))]
fn lease_address(lease: &DhcpV6Lease) -> DhcpV6OptionIaAddr
    ensures value { result ≡ table.lease_address lease.now }
    ensures len { length (written_ia_address result) ≡ 24 }
{
    an_ipv6_address_reads_back(lease.address);
    DhcpV6OptionIaAddr::new(
        lease.address,
        lease.preferred_time_sec,
        lease.valid_time_sec,
    )
}

// The prefix of a lease.
#[tactic(auto, using(crate::proofs::AssociationLemmas::length_of_prefix))]
fn lease_prefix(lease: &DhcpV6Lease) -> DhcpV6OptionIaPrefix
    ensures value { result ≡ table.lease_prefix lease.now }
    ensures len { length (written_ia_prefix result) ≡ 25 }
{
    an_ipv6_address_reads_back(lease.address);
    DhcpV6OptionIaPrefix::new(
        lease.address,
        lease.prefix_len,
        lease.preferred_time_sec,
        lease.valid_time_sec,
    )
}

// The message of a row. Its options are added by rising code, so that they are written as they are
// kept; an IA_PD alone comes early.
fn message_of(
    alloc: Global,
    xid: u32,
    config: &DhcpV6Config,
    row: Row,
) -> Result<DhcpV6Message, DhcpError>
    requires limits { IsTrue (is_within_limits config.now) }
    requires server { IfSome row.server (λ duid. length (written_duid duid) ≤ 65535) }
    requires association { IfSome row.association (λ option. IsTrue (fits option)) }
    ensures { Makes (λ message. message) result (table_message xid config.now row.entry) }
{
    let elapsed_ms = row.elapsed_ms;
    let begun = DhcpV6Message::of_client(alloc, row.msg_type, xid, &config.duid);
    let (row, mut message) = beside(row, begun)?;
    add_options(&mut message.options, alloc, config, row)?;
    message.add_elapsed_time(elapsed_ms)?;
    Ok(message)
}

// Adds the options of a row to those of every message.
fn add_options(
    options: &mut DhcpV6Options,
    alloc: Global,
    config: &DhcpV6Config,
    row: Row,
) -> Result<(), DhcpError>
    requires limits { IsTrue (is_within_limits config.now) }
    requires server { IfSome row.server (λ duid. length (written_duid duid) ≤ 65535) }
    requires association { IfSome row.association (λ option. IsTrue (fits option)) }
    ensures { MatchResult result
        (λ _. options.new ≡ with_options options.old (table.own_options config.now row.entry))
        (λ e. e ≡ no_memory) }
{
    let added = add_server(options, alloc, row.server);
    let (row, _) = beside(row, added)?;
    add_association(options, row.association)?;
    add_requests(options, alloc, config, row.asks)
}

// Adds option 2, if a server is named.
#[tactic(auto, using(crate::proofs::OptionLemmas::server_fits))]
pub(crate) fn add_server(
    options: &mut DhcpV6Options,
    alloc: Global,
    server: Option<&DhcpV6Duid>,
) -> Result<(), DhcpError>
    requires { IfSome (option_copied server) (λ duid. length (written_duid duid) ≤ 65535) }
    ensures { Adds result options.old options.new
        (table.server_option (option_copied server.entry)) }
{
    match server {
        Some(duid) => options.insert(DhcpV6Option::ServerId(duid.try_clone(alloc)?)),
        None => Ok(()),
    }
}

// Adds the identity association, if there is one.
pub(crate) fn add_association(
    options: &mut DhcpV6Options,
    association: Option<DhcpV6Option>,
) -> Result<(), DhcpError>
    requires { IfSome association (λ option. IsTrue (fits option)) }
    ensures { Adds result options.old options.new (table.association_option association) }
{
    match association {
        Some(association) => options.insert(association),
        None => Ok(()),
    }
}

// Adds option 6, if options are asked for.
fn add_requests(
    options: &mut DhcpV6Options,
    alloc: Global,
    config: &DhcpV6Config,
    asks: bool,
) -> Result<(), DhcpError>
    requires { IsTrue (is_within_limits config.now) }
    ensures { Adds result options.old options.new
        (table.request_option asks config.now.request_opts) }
{
    if !asks {
        return Ok(());
    }
    options.insert(DhcpV6Option::OptionRequestOption(config.request_opts.try_clone(alloc)?))
}
