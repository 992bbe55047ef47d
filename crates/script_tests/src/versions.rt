//! Texts in version 1, and their upgrade.

use crate::scripts::{
    ADDRESSES, NO_FIELDS, is_read, is_read_v1, is_script, is_upgradable, is_upgraded_to, text_of,
};
use std::alloc::{AllocError, Global};

// Whether the version 1 text that has the first lease line is upgraded to the text that has the
// other.
fn is_lease_upgraded(alloc: Global, first: &str, whole: &str) -> Result<bool, AllocError> {
    let old = text_of(alloc, 1, first, "at 0 ok none\nend\n")?;
    let new = text_of(alloc, 2, whole, "at 0 ok none\nend\n")?;
    is_upgraded_to(alloc, old.as_str(), new.as_str())
}

#[test]
fn a_lease_gains_the_fields_of_the_empty_one(rt: HostRuntime) {
    let first = format!(in rt.alloc(); "{ADDRESSES} 10 20 30").expect(&rt, "memory");
    let whole = format!(in rt.alloc(); "{ADDRESSES} 10 20 30 {NO_FIELDS}").expect(&rt, "memory");
    let is_upgraded = is_lease_upgraded(rt.alloc(), first.as_str(), whole.as_str());
    assert!(rt; is_upgraded.expect(&rt, "memory"));
}

// Whether the text in a version that has this lease line is the version 1 text of a script, by both
// calls.
fn is_version_1(alloc: Global, version: u8, lease: &str) -> Result<(bool, bool), AllocError> {
    let text = text_of(alloc, version, lease, "end\n")?;
    let text = text.as_str();
    Ok((is_read_v1(alloc, text)?, is_upgradable(alloc, text)?))
}

#[test]
fn a_text_is_of_one_version(rt: HostRuntime) {
    const CASES: [(u8, &str, bool); 7] = [
        (1, "none", true),
        (1, "192.0.2.10 192.0.2.1 192.0.2.1 30 20 10", true),
        (1, "192.0.2.10 192.0.2.1 192.0.2.1 10 20", false),
        (1, "192.0.2.10 192.0.2.1 192.0.2.1 10 20 30 ", false),
        (1, "192.0.2.10 192.0.2.1 192.0.2.1 10 20 30 0.0.0.0", false),
        (2, "none", false),
        (2, "192.0.2.10 192.0.2.1 192.0.2.1 10 20 30", false),
    ];
    for &(version, lease, want) in &CASES {
        let is_version_1 = is_version_1(rt.alloc(), version, lease).expect(&rt, "memory");
        assert!(rt; is_version_1 == (want, want), "{version} {lease}");
    }
    let lease = format!(in rt.alloc(); "{ADDRESSES} 10 20 30").expect(&rt, "memory");
    assert!(rt; !is_script(rt.alloc(), lease.as_str(), "end\n").expect(&rt, "memory"));
}

#[test]
fn a_version_1_text_is_not_read_as_version_2(rt: HostRuntime) {
    let text = text_of(rt.alloc(), 1, "none", "end\n").expect(&rt, "memory");
    assert!(rt; !is_read(rt.alloc(), text.as_str()).expect(&rt, "memory"));
}
