//! The messages that a client sends, byte by byte.

ghost use Rattle.std.specs.Prelude.{◌≤◌, IsTrue, length};
ghost use Rattle.dhcp6_opt.specs.Duid.{written_duid};
ghost use Rattle.dhcp6_msg.specs.Config.{is_within_limits};

use crate::reply::{
    ASSOCIATION, CLIENT, ELAPSED, REQUESTS, SERVER, joined, plain_config, plain_lease, solicit_of,
};
use dhcp_wire::{Bytes, DhcpError, ErrorKind, FixedText};
use dhcp6_msg::{
    DhcpV6Config, DhcpV6Lease, DhcpV6Message, DhcpV6Mode, new_rebind_msg, new_release_msg,
    new_renew_msg, new_request_msg, new_solicit_msg,
};
use std::alloc::Global;

// The five messages.
#[derive(Clone, Copy)]
enum Sent {
    Solicit,
    Request,
    Renew,
    Rebind,
    Release,
}

// One of the five messages.
fn message(
    alloc: Global,
    config: &DhcpV6Config,
    lease: &DhcpV6Lease,
    sent: Sent,
) -> Result<DhcpV6Message, DhcpError>
    requires limits { IsTrue (is_within_limits config.now) }
    requires server { length (written_duid lease.now.srv_duid) ≤ 65535 }
{
    match sent {
        Sent::Solicit => new_solicit_msg(alloc, 0xabcdef, config, 0, 0),
        Sent::Request => new_request_msg(alloc, 0, config, 0, lease),
        Sent::Renew => new_renew_msg(alloc, 0, config, 0, lease),
        Sent::Rebind => new_rebind_msg(alloc, 0, config, 0, lease),
        Sent::Release => new_release_msg(alloc, 0, config, lease),
    }
}

// The bytes of one of the five messages.
fn bytes_of(
    alloc: Global,
    config: &DhcpV6Config,
    lease: &DhcpV6Lease,
    sent: Sent,
) -> Result<Bytes, DhcpError> {
    if !config.is_within_limits() || lease.srv_duid.written_len() > 65535 {
        return Err(DhcpError::new_fixed(ErrorKind::Bug, FixedText::Config));
    }
    message(alloc, config, lease, sent)?.emit(alloc)
}

// The same, of the plain lease.
fn bytes_of_lease(alloc: Global, config: &DhcpV6Config, sent: Sent) -> Result<Bytes, DhcpError> {
    let lease = plain_lease(alloc)?;
    bytes_of(alloc, config, &lease, sent)
}

// The same, of the plain configuration too.
fn plain_bytes(alloc: Global, sent: Sent) -> Result<Bytes, DhcpError> {
    let config = plain_config(alloc)?;
    bytes_of_lease(alloc, &config, sent)
}

// Whether one of the five messages has these bytes.
fn is_written(alloc: Global, sent: Sent, parts: &[&[u8]]) -> Result<bool, DhcpError> {
    let wanted = joined(alloc, parts)?;
    Ok(plain_bytes(alloc, sent)? == wanted)
}

#[test]
fn each_message_is_its_row_byte_by_byte(rt: HostRuntime) {
    const EMPTY: [u8; 16] = [0, 3, 0, 12, 0, 0, 0, 0, 0, 0, 0, 0, 0, 0, 0, 0];
    const CASES: [(Sent, [&[u8]; 6]); 5] = [
        (
            Sent::Solicit,
            [
                &[1, 0xab, 0xcd, 0xef],
                &CLIENT,
                &[],
                &EMPTY,
                &REQUESTS,
                &ELAPSED,
            ],
        ),
        (
            Sent::Request,
            [
                &[3, 0, 0, 0],
                &CLIENT,
                &SERVER,
                &ASSOCIATION,
                &REQUESTS,
                &ELAPSED,
            ],
        ),
        (
            Sent::Renew,
            [
                &[5, 0, 0, 0],
                &CLIENT,
                &SERVER,
                &ASSOCIATION,
                &REQUESTS,
                &ELAPSED,
            ],
        ),
        (
            Sent::Rebind,
            [
                &[6, 0, 0, 0],
                &CLIENT,
                &[],
                &ASSOCIATION,
                &REQUESTS,
                &ELAPSED,
            ],
        ),
        (
            Sent::Release,
            [&[8, 0, 0, 0], &CLIENT, &SERVER, &ASSOCIATION, &[], &ELAPSED],
        ),
    ];
    for &(sent, parts) in &CASES {
        assert!(rt; is_written(rt.alloc(), sent, &parts).expect(&rt, "memory"));
    }
}

// The bytes of the Solicit of this mode.
fn solicit(alloc: Global, mode: DhcpV6Mode) -> Result<Bytes, DhcpError> {
    let mut config = plain_config(alloc)?;
    config.mode = mode;
    solicit_of(alloc, &config)
}

// Whether the Solicit of this mode has these bytes after its head.
fn is_solicit(alloc: Global, mode: DhcpV6Mode, options: [&[u8]; 5]) -> Result<bool, DhcpError> {
    let [first, second, third, fourth, fifth] = options;
    let head = [1, 0xab, 0xcd, 0xef];
    let wanted = joined(alloc, &[&head, first, second, third, fourth, fifth])?;
    Ok(solicit(alloc, mode)? == wanted)
}

#[test]
fn a_solicit_asks_for_what_its_mode_says(rt: HostRuntime) {
    let temporary = [0, 4, 0, 4, 0, 0, 0, 0];
    let hint = [
        0, 25, 0, 41, 0, 0, 0, 0, 0, 0, 0, 0, 0, 0, 0, 0, 0, 26, 0, 25, 0, 0, 0, 0, 0, 0, 0, 0, 60,
    ];
    let cases: [(DhcpV6Mode, [&[u8]; 5]); 2] = [
        (
            DhcpV6Mode::TemporaryAddresses,
            [&CLIENT, &temporary, &REQUESTS, &ELAPSED, &[]],
        ),
        (
            DhcpV6Mode::PrefixDelegation(60),
            [&CLIENT, &REQUESTS, &ELAPSED, &hint, &[0; 16]],
        ),
    ];
    for (mode, options) in cases {
        assert!(rt; is_solicit(rt.alloc(), mode, options).expect(&rt, "memory"));
    }
}
