//! Words and waits.

use dhcp_clock::{WordList, Words, discovery_wait, draw, half_wait, retransmit_wait};

// The next three words.
fn next_three<W: Words>(words: &mut W) -> [u32; 3] {
    let first = words.next_word();
    let second = words.next_word();
    let third = words.next_word();
    [first, second, third]
}

#[test]
fn a_list_gives_its_words_in_order_and_then_zeros(rt: HostRuntime) {
    let mut words = WordList::new(vec![in rt.alloc(); 0xffffffff, 7].expect(&rt, "memory"));
    assert!(rt; next_three(&mut words) == [0xffffffff, 7, 0]);
    assert!(rt; next_three(&mut words) == [0, 0, 0]);
}

#[test]
fn waits_of_a_discovery_double_up_to_a_minute(rt: HostRuntime) {
    const WAITS: [(u32, u32, u64); 6] = [
        (0, 0, 3000),
        (1, 0, 7000),
        (2, 0, 15000),
        (3, 0, 31000),
        (4, 0, 62000),
        (4294967295, 1999, 63999),
    ];
    for &(count, word, wait) in &WAITS {
        assert!(rt;
            discovery_wait(count, word) == wait,
            "at {count} and {word}"
        );
    }
}

#[test]
fn half_of_the_rest_is_waited_but_a_minute_at_least(rt: HostRuntime) {
    for (rest, wait) in [(600000, 300000), (100000, 60000), (50000, 50000), (0, 0)] {
        assert!(rt; half_wait(rest) == wait, "at {rest}");
    }
}

#[test]
fn a_draw_falls_between_its_bounds(rt: HostRuntime) {
    for (lo, hi, word, drawn) in [
        (1000, 10000, 0, 1000),
        (5, 6, 4294967295, 5),
        (900, 1100, 4294967295, 995),
    ] {
        assert!(rt; draw(lo, hi, word) == drawn, "from {lo} to {hi}");
    }
}

#[test]
fn waits_double_up_to_about_the_greatest(rt: HostRuntime) {
    for (previous, irt, mrt, first, wait) in [
        (950, 10000, 600000, 0, 1805),
        (20000, 1000, 30000, 0, 27000),
        (0, 1000, 30000, 199, 1099),
        (0, 1000, 30000, 200, 900),
    ] {
        let mut words = WordList::new(vec![in rt.alloc(); first, 0].expect(&rt, "memory"));
        let drawn = retransmit_wait(previous, irt, mrt, &mut words);
        assert!(rt; drawn == wait, "after {previous} by {first}");
    }
}
