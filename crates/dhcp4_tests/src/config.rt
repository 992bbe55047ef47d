//! Configurations.

use dhcp_wire::{DhcpError, ErrorKind};
use dhcp4_lease::{DhcpV4Config, DhcpV4MessageForms};
use std::alloc::Global;

// The MAC address of every configuration.
const MAC: [u8; 6] = [2, 0, 0, 0, 0, 1];

// What changes a new configuration.
#[derive(Clone, Copy)]
pub(crate) enum Step {
    None,
    Override,
    Rfc2131,
    Rfc2131WithClient,
    Extra,
    Client,
    MacAsClient,
    Host,
    HostAsClient,
    NoHostAsClient,
}

// A new configuration that this step has changed.
pub(crate) fn stepped(alloc: Global, step: Step) -> Result<DhcpV4Config, DhcpError> {
    let mut config = DhcpV4Config::new(alloc, "eth0")?;
    config.set_iface_mac_raw(&MAC)?;
    change(alloc, &mut config, step)?;
    Ok(config)
}

// Changes a configuration.
fn change(alloc: Global, config: &mut DhcpV4Config, step: Step) -> Result<(), DhcpError> {
    let changed = match step {
        Step::None => Ok(config),
        Step::Override => config.override_request_dhcp_opts(alloc, &[6, 3, 1, 3]),
        Step::Rfc2131 => config
            .set_message_forms(DhcpV4MessageForms::Rfc2131)
            .override_request_dhcp_opts(alloc, &[1, 3, 6]),
        Step::Rfc2131WithClient => config
            .set_message_forms(DhcpV4MessageForms::Rfc2131)
            .set_client_id(alloc, 5, &[9]),
        Step::Extra => config.request_extra_dhcp_opts(alloc, &[3, 2]),
        Step::Client => config.set_client_id(alloc, 5, &[9]),
        Step::MacAsClient => config.use_mac_as_client_id(alloc),
        Step::Host => config.set_host_name(alloc, "foo"),
        Step::HostAsClient => config
            .set_host_name(alloc, "foo")?
            .use_host_name_as_client_id(alloc),
        Step::NoHostAsClient => config.use_host_name_as_client_id(alloc),
    };
    changed?;
    Ok(())
}

// How the text of a MAC address is refused, if it is.
fn refusal(alloc: Global, mac: &str) -> Result<Option<ErrorKind>, DhcpError> {
    match DhcpV4Config::new_proxy(alloc, "eth1", mac) {
        Ok(_config) => Ok(None),
        Err(error) if error.kind() == ErrorKind::OutOfMemory => Err(error),
        Err(error) => Ok(Some(error.kind())),
    }
}

#[test]
fn a_mac_address_has_six_bytes_in_hex(rt: HostRuntime) {
    const CASES: [(&str, Option<ErrorKind>); 4] = [
        ("01:02", Some(ErrorKind::NotSupported)),
        ("01:02:2a:2c:f7", Some(ErrorKind::NotSupported)),
        ("01:02:2a:2c:f7:g", Some(ErrorKind::InvalidArgument)),
        ("01:02:2a:2c:f7:04", None),
    ];
    for &(mac, wanted) in &CASES {
        assert!(rt; refusal(rt.alloc(), mac).expect(&rt, "answer") == wanted);
    }
}

#[test]
fn a_proxy_asks_for_another_host(rt: HostRuntime) {
    let proxy = DhcpV4Config::new_proxy(rt.alloc(), "eth1", "01:02:2a:2c:f7:04").expect(
        &rt, "memory",
    );
    assert!(rt; proxy.is_proxy);
    assert!(rt; proxy.iface_name.as_str() == "eth1");
    assert!(rt; proxy.iface_mac() == [1, 2, 0x2a, 0x2c, 0xf7, 4]);
}

// Whether a MAC address is taken, and the one that the configuration then has.
fn mac_after(config: &mut DhcpV4Config, mac: &[u8]) -> (bool, [u8; 6]) {
    let is_taken = config.set_iface_mac_raw(mac).is_ok();
    (is_taken, config.iface_mac())
}

#[test]
fn an_address_that_is_refused_changes_nothing(rt: HostRuntime) {
    let mut config = DhcpV4Config::empty(rt.alloc()).expect(&rt, "memory");
    assert!(rt; mac_after(&mut config, &MAC) == (true, MAC));
    assert!(rt; mac_after(&mut config, &[1, 2, 3, 4, 5]) == (false, MAC));
    assert!(rt; mac_after(&mut config, &[6, 5, 4, 3, 2, 1]) == (true, [6, 5, 4, 3, 2, 1]));
}

#[test]
fn numbers_are_set_in_a_chain(rt: HostRuntime) {
    let mut config = DhcpV4Config::empty(rt.alloc()).expect(&rt, "memory");
    config.set_iface_index(3).set_timeout_sec(60);
    assert!(rt; (config.iface_index, config.timeout_sec) == (3, 60));
}

#[test]
fn the_message_forms_are_those_of_mozim_unless_set(rt: HostRuntime) {
    let mut config = DhcpV4Config::empty(rt.alloc()).expect(&rt, "memory");
    assert!(rt; DhcpV4MessageForms::default() == DhcpV4MessageForms::Mozim);
    assert!(rt; config.message_forms() == DhcpV4MessageForms::Mozim);
    config.set_message_forms(DhcpV4MessageForms::Rfc2131);
    assert!(rt; config.message_forms() == DhcpV4MessageForms::Rfc2131);
}

// Whether a configuration whose MAC address was set from a text, with the forms of RFC 2131, is
// equal to its copy.
fn is_copied(alloc: Global) -> Result<bool, DhcpError> {
    let mut config = DhcpV4Config::empty(alloc)?;
    config.set_iface_mac(alloc, "02:00:00:00:00:01")?;
    config.set_message_forms(DhcpV4MessageForms::Rfc2131);
    is_equal_to_copy(alloc, &config)
}

// Whether a configuration is equal to its copy, which has that MAC address and those forms.
fn is_equal_to_copy(alloc: Global, config: &DhcpV4Config) -> Result<bool, DhcpError> {
    let copy = config.try_clone(alloc)?;
    let has_forms = copy.message_forms() == DhcpV4MessageForms::Rfc2131;
    Ok(copy == *config && copy.iface_mac() == MAC && has_forms)
}

#[test]
fn a_copy_is_equal(rt: HostRuntime) {
    assert!(rt; is_copied(rt.alloc()).expect(&rt, "answer"));
}
