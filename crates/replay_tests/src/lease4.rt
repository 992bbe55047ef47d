//! From a Discover to a lease.

use crate::scripts::{IPV4, Life, USUAL, is_printed};

// A time limit of a second.
const LIMIT_OF_1: &str = "iface 1 020000000001 0 1";

// Random words, the second of which draws a pause of five milliseconds.
const PAUSE_OF_5: &str = "words 1234567800000005";

const LAST_START: &str = "start 1152921504606846975";

const DISCOVERED: &str = "
    at 0 ok none
      handed frame DISCOVER
";

// A Discover, and a second later an Offer, which is requested.
const OFFERED: &str = "
    at 0 ok none
      handed frame DISCOVER
    at 1000 ok frame OFFER
      state selecting
      handed frame REQUEST
";

const LIVES: [Life; 16] = [
    Life {
        name: "a lease in three events",
        line: USUAL,
        begins: OFFERED,
        goes_on: "
            at 2000 ok frame ACK
              state done LEASE 48 85 100 REST
        ",
    },
    Life {
        name: "an Offer in the event of the Discover",
        line: USUAL,
        begins: "",
        goes_on: "
            at 0 ok frame OFFER
              handed frame DISCOVER
              state selecting
              handed frame REQUEST
        ",
    },
    Life {
        name: "a lease of no time",
        line: USUAL,
        begins: OFFERED,
        goes_on: "
            at 2000 ok frame ACK_OF_NO_TIME
              state done LEASE 0 0 0 REST
              state renewing
              state rebinding
              state init_reboot
              handed frame DISCOVER
        ",
    },
    Life {
        name: "a time limit, until a clean-up",
        line: LIMIT_OF_1,
        begins: DISCOVERED,
        goes_on: "
            at 1000 ok frame OFFER
              failed timeout
            at 1500 ok none
              failed timeout
            at 2000 ok cleanup
              handed frame DISCOVER
        ",
    },
    Life {
        name: "a release without a lease",
        line: USUAL,
        begins: "",
        goes_on: "
            at 0 ok release
              handed frame DISCOVER
        ",
    },
    Life {
        name: "an Offer to the port of servers",
        line: USUAL,
        begins: DISCOVERED,
        goes_on: "
            at 1000 ok frame OFFER_TO_PORT_67
            at 2000 ok frame ACK
        ",
    },
    Life {
        name: "an Offer as a payload",
        line: USUAL,
        begins: DISCOVERED,
        goes_on: "
            at 1000 ok payload OFFER_PAYLOAD
            at 2000 ok frame ACK
        ",
    },
    Life {
        name: "an Offer to another transaction id",
        line: USUAL,
        begins: DISCOVERED,
        goes_on: "
            at 1000 ok frame OFFER_TO_ANOTHER
            at 2000 ok frame ACK
        ",
    },
    Life {
        name: "an Ack where an Offer is awaited",
        line: USUAL,
        begins: DISCOVERED,
        goes_on: "
            at 1000 ok frame ACK
            at 2000 ok frame ACK
        ",
    },
    Life {
        name: "a clean-up in the first event draws nothing",
        line: PAUSE_OF_5,
        begins: "",
        goes_on: "
            at 0 ok cleanup
            at 4 ok none
            at 5 ok none
              handed frame DISCOVER
        ",
    },
    Life {
        name: "a Nack of a requested address",
        line: USUAL,
        begins: OFFERED,
        goes_on: "
            at 2000 ok frame NACK
              state init_reboot
              handed frame DISCOVER
        ",
    },
    Life {
        name: "a lease with all that a usual server says",
        line: USUAL,
        begins: OFFERED,
        goes_on: "
            at 2000 ok frame USUAL_ACK
              state done LEASE 1800 3150 3600 USUAL_REST
        ",
    },
    Life {
        name: "a refused request is sent again when its wait is over",
        line: USUAL,
        begins: DISCOVERED,
        goes_on: "
            at 1000 refuse frame OFFER
              state selecting
              refused frame REQUEST
            at 2000 ok frame ACK
            at 4000 ok frame ACK
              handed frame REQUEST
              state done LEASE 48 85 100 REST
        ",
    },
    Life {
        name: "a refused Discover, until its wait is over",
        line: USUAL,
        begins: "",
        goes_on: "
            at 0 refuse frame OFFER
              refused frame DISCOVER
            at 2999 ok frame OFFER
            at 3000 ok none
              handed frame DISCOVER
        ",
    },
    Life {
        name: "a Nack where an Offer is awaited",
        line: USUAL,
        begins: DISCOVERED,
        goes_on: "
            at 1 ok frame NACK
        ",
    },
    Life {
        name: "a lease at the last moment",
        line: LAST_START,
        begins: "",
        goes_on: "
            at 1152921504606846975 ok frame OFFER
              handed frame DISCOVER
              state selecting
              handed frame REQUEST
            at 1152921504606846975 ok frame ACK
              state done LEASE 48 85 100 REST
        ",
    },
];

#[test]
fn each_search_is_printed(rt: HostRuntime) {
    for life in &LIVES {
        let is_printed = is_printed(rt.alloc(), &IPV4, life).expect(&rt, "memory");
        assert!(rt; is_printed, "{}", life.name);
    }
}
