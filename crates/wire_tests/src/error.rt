//! Errors, their texts and contexts.

use dhcp_wire::{
    DhcpError, ErrorContext, ErrorKind, FixedText, TryClone, both, none_if_refused, u16_in,
};
use std::alloc::Global;

// An error of a kind with a text of its own.
fn error_with(alloc: Global, kind: ErrorKind, text: &str) -> Result<DhcpError, DhcpError> {
    Ok(DhcpError::new(kind, String::from_str(alloc, text)?))
}

// The error, unless memory has run out.
fn unless_out_of_memory(error: DhcpError) -> Result<DhcpError, DhcpError> {
    if error.kind() == ErrorKind::OutOfMemory {
        Err(error)
    } else {
        Ok(error)
    }
}

#[test]
fn context_says_what_was_being_done_and_then_the_cause(rt: HostRuntime) {
    let alloc = rt.alloc();
    let error = error_with(alloc, ErrorKind::NoLease, "a")
        .expect(&rt, "memory")
        .context(alloc, "b");
    let printed = format!(in alloc; "{}", unless_out_of_memory(error).expect(&rt, "memory")).expect(
        &rt, "memory",
    );
    assert!(rt; printed.as_str() == "NoLease: b, caused by a");
}

#[test]
fn the_error_of_a_result_goes_into_a_context(rt: HostRuntime) {
    let refused: Result<u8, DhcpError> = Err(DhcpError::invalid_message(FixedText::Short));
    match refused.context(rt.alloc(), "b") {
        Ok(_) => assert!(rt; false, "the error is lost"),
        Err(error) => assert!(rt;
            unless_out_of_memory(error)
                .expect(&rt, "memory")
                .msg()
                .starts_with("b, caused by ")
        ),
    }
    let given: Result<u8, DhcpError> = Ok(7);
    assert!(rt; given.context(rt.alloc(), "b") == Ok(7));
}

#[test]
fn out_of_memory_is_one_error(rt: HostRuntime) {
    let alloc = rt.alloc();
    let error = error_with(alloc, ErrorKind::OutOfMemory, "a")
        .expect(&rt, "memory")
        .context(alloc, "b");
    assert!(rt; error == DhcpError::out_of_memory());
    assert!(rt; error.msg() == "");
}

#[test]
fn a_copy_of_an_error_is_equal(rt: HostRuntime) {
    let fixed = DhcpError::new_fixed(ErrorKind::NoLease, FixedText::NoLease);
    let owned = error_with(rt.alloc(), ErrorKind::NoLease, FixedText::NoLease.as_str()).expect(
        &rt, "memory",
    );
    assert!(rt;
        fixed.try_clone(rt.alloc()).expect(&rt, "memory")
            == owned.try_clone(rt.alloc()).expect(&rt, "memory")
    );
    assert!(rt;
        fixed != error_with(rt.alloc(), ErrorKind::Timeout, owned.msg()).expect(&rt, "memory")
    );
}

#[test]
fn a_refused_read_is_none(rt: HostRuntime) {
    assert!(rt; none_if_refused(u16_in(&[1])).expect(&rt, "reads").is_none());
    assert!(rt; none_if_refused(u16_in(&[1, 2, 3])).expect(&rt, "reads") == Some(0x0102));
    let out: Result<u8, DhcpError> = Err(DhcpError::out_of_memory());
    assert!(rt; none_if_refused(out) == Err(DhcpError::out_of_memory()));
}

#[test]
fn out_of_memory_alone_has_no_text(rt: HostRuntime) {
    assert!(rt; FixedText::NoMemory.as_str() == "");
    const TEXTS: [FixedText; 12] = [
        FixedText::Short,
        FixedText::NotUtf8,
        FixedText::Unreadable,
        FixedText::WrongType,
        FixedText::NoLease,
        FixedText::Times,
        FixedText::Lease,
        FixedText::Mac,
        FixedText::Config,
        FixedText::Script,
        FixedText::TimedOut,
        FixedText::Refused,
    ];
    for &text in &TEXTS {
        assert!(rt; !text.as_str().is_empty());
    }
}

// A read that was refused.
fn refused() -> Result<u16, DhcpError> {
    Err(DhcpError::invalid_message(FixedText::Short))
}

// A read that found no memory.
fn no_memory() -> Result<u16, DhcpError> {
    Err(DhcpError::out_of_memory())
}

#[test]
fn of_two_errors_the_first_is_given(rt: HostRuntime) {
    assert!(rt; both(Ok(1u16), Ok(2u16)) == Ok((1, 2)));
    let short = DhcpError::invalid_message(FixedText::Short);
    assert!(rt; both(refused(), no_memory()) == Err(short));
    assert!(rt; both(no_memory(), refused()) == Err(DhcpError::out_of_memory()));
    assert!(rt; both(Ok(1u16), no_memory()) == Err(DhcpError::out_of_memory()));
}
