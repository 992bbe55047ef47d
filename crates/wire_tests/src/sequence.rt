//! Lists and texts that contracts see as lists.

use dhcp_wire::{Bytes, DhcpError, ErrorKind, FixedText, Sequence, Text, TryClone};
use std::alloc::Global;
use std::test::Fail;

// A struct and an enum with every kind of list inside, whose equality and order are derived.
#[derive(Debug, Drop, PartialEq, Eq, PartialOrd, Ord)]
struct Row {
    name: Text,
    numbers: Sequence<u16>,
    entries: Sequence<Entry>,
}

#[derive(Debug, Drop, PartialEq, Eq, PartialOrd, Ord)]
enum Entry {
    Named(Text),
    Listed(Bytes),
}

// A row with this name, these numbers, and one entry of each kind.
fn row_of(alloc: Global, name: &str, numbers: &[u16]) -> Result<Row, DhcpError> {
    let mut entries = Sequence::new(alloc);
    entries.push(Entry::Named(Text::from_str(alloc, name)?))?;
    entries.push(Entry::Listed(Bytes::from_slice(alloc, &[1, 2])?))?;
    Ok(Row {
        name: Text::from_str(alloc, name)?,
        numbers: Sequence::from_slice(alloc, numbers)?,
        entries,
    })
}

#[test]
fn derived_comparisons_compare_the_lists(rt: HostRuntime) {
    let alloc = rt.alloc();
    assert!(rt;
        row_of(alloc, "a", &[4, 5]).expect(&rt, "memory")
            == row_of(alloc, "a", &[4, 5]).expect(&rt, "memory")
    );
    assert!(rt;
        row_of(alloc, "a", &[4, 5]).expect(&rt, "memory")
            < row_of(alloc, "a", &[4, 6]).expect(&rt, "memory")
    );
    assert!(rt;
        row_of(alloc, "ab", &[4, 6]).expect(&rt, "memory")
            < row_of(alloc, "b", &[4, 5]).expect(&rt, "memory")
    );
}

#[test]
fn lists_return_what_they_hold(rt: HostRuntime) {
    let numbers: Sequence<u16> = Sequence::from(vec![in rt.alloc(); 1, 2].expect(&rt, "memory"));
    assert!(rt; numbers == numbers.try_clone(rt.alloc()).expect(&rt, "memory"));
    assert!(rt; numbers < Sequence::from_slice(rt.alloc(), &[1, 3]).expect(&rt, "memory"));
    assert!(rt; numbers.into_vec().as_slice() == [1, 2].as_slice());
    assert!(rt; Bytes::new(rt.alloc()).is_empty());
}

#[test]
fn texts_return_what_they_hold(rt: HostRuntime) {
    let text = Text::from(String::from_str(rt.alloc(), "ab").expect(&rt, "memory"));
    assert!(rt; text == text.try_clone(rt.alloc()).expect(&rt, "memory"));
    assert!(rt; Text::new(rt.alloc()) < text);
    assert!(rt; text.len() == 2);
    assert!(rt; text.into_string().as_str() == "ab");
}

// A copy of a value that can be copied.
fn copy_of<T: TryClone>(alloc: Global, value: &T) -> Result<T, DhcpError> {
    value.try_clone(alloc)
}

#[test]
fn a_list_of_lists_is_copied(rt: HostRuntime) {
    let mut names = Sequence::new(rt.alloc());
    names
        .push(Text::from_str(rt.alloc(), "a").expect(&rt, "memory"))
        .expect(&rt, "memory");
    assert!(rt; copy_of(rt.alloc(), &names).expect(&rt, "memory") == names);
    let error = DhcpError::new_fixed(ErrorKind::NoLease, FixedText::NoLease);
    assert!(rt; copy_of(rt.alloc(), &error).expect(&rt, "memory") == error);
}

#[test]
fn out_of_memory_leaves_the_list(rt: HostRuntime) -> Result<(), Fail> {
    let mut numbers: Sequence<u16> = Sequence::from_slice(rt.alloc(), &[1, 2, 3, 4])?;
    if let Err(error) = numbers.push(5) {
        assert!(rt; numbers.as_slice() == [1, 2, 3, 4].as_slice());
        Err(error)?;
    }
    assert!(rt; numbers.as_slice() == [1, 2, 3, 4, 5].as_slice());
    Ok(())
}
