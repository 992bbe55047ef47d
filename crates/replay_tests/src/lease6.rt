//! From a Solicit to a lease.

use crate::scripts::{IPV6, Life, USUAL, is_printed};

const PREFIX: &str = "iface 1 fe800000000000000000000000000001 - pd 60 0";

const TEMPORARY: &str = "iface 1 fe800000000000000000000000000001 - ta 0";

// A time limit of a second.
const LIMIT_OF_1: &str = "iface 1 fe800000000000000000000000000001 - na 1";

// A Solicit, and an Advertise, whose offer is requested.
const OFFERED: &str = "
    at 0 ok none
      handed udp6 SOLICIT6.0000
    at 100 ok payload ADVERTISE6
      state request
      handed udp6 REQUEST6.0000
";

const LIVES: [Life; 12] = [
    Life {
        name: "a lease in three events",
        line: USUAL,
        begins: OFFERED,
        goes_on: "
            at 200 ok payload REPLY6
              state done LEASE6 50 80 100 200 REST6
        ",
    },
    Life {
        name: "eleven requests of an offer, and a new Solicit",
        line: USUAL,
        begins: OFFERED,
        goes_on: "
            at 1000 ok none
              handed udp6 REQUEST6.005a
            at 2710 ok none
              handed udp6 REQUEST6.0105
            at 5959 ok none
              handed udp6 REQUEST6.0249
            at 12132 ok none
              handed udp6 REQUEST6.04b3
            at 23860 ok none
              handed udp6 REQUEST6.0948
            at 46143 ok none
              handed udp6 REQUEST6.11fc
            at 73143 ok none
              handed udp6 REQUEST6.1c88
            at 100143 ok none
              handed udp6 REQUEST6.2714
            at 127143 ok none
              handed udp6 REQUEST6.31a0
            at 154143 ok none
              handed udp6 REQUEST6.3c2c
            at 181143 ok none
              state solicit
              handed udp6 SOLICIT6_AGAIN.0000
        ",
    },
    Life {
        name: "T1 and T2 that the server leaves to the client",
        line: USUAL,
        begins: OFFERED,
        goes_on: "
            at 200 ok payload REPLY6_OF_DEFAULT_TIMES
              state done LEASE6 50 75 100 200 REST6
        ",
    },
    Life {
        name: "a lease of no time",
        line: USUAL,
        begins: OFFERED,
        goes_on: "
            at 200 ok payload REPLY6_OF_NO_TIME
              state done LEASE6 0 0 0 0 REST6
              state renew
              state rebind
              state solicit
              handed udp6 SOLICIT6_AGAIN.0000
        ",
    },
    Life {
        name: "an Advertise is no Reply",
        line: USUAL,
        begins: OFFERED,
        goes_on: "
            at 200 ok payload ADVERTISE6_TO_0
        ",
    },
    Life {
        name: "a Reply in a frame",
        line: USUAL,
        begins: OFFERED,
        goes_on: "
            at 200 ok frame REPLY6
        ",
    },
    Life {
        name: "a Solicit for a prefix of 60 bits",
        line: PREFIX,
        begins: "",
        goes_on: "
            at 0 ok none
              handed udp6 SOLICIT6_OF_PREFIX
        ",
    },
    Life {
        name: "a time limit, until a clean-up",
        line: LIMIT_OF_1,
        begins: "",
        goes_on: "
            at 0 ok none
              handed udp6 SOLICIT6.0000
            at 1000 ok none
              failed timeout
            at 1500 ok none
              failed timeout
            at 2000 ok cleanup
              handed udp6 SOLICIT6.0000
        ",
    },
    Life {
        name: "a refused Solicit, until its wait is over",
        line: USUAL,
        begins: "",
        goes_on: "
            at 0 refuse payload ADVERTISE6
              refused udp6 SOLICIT6.0000
            at 899 ok payload ADVERTISE6
            at 900 ok none
              handed udp6 SOLICIT6.005a
        ",
    },
    Life {
        name: "a Reply where an Advertise is awaited",
        line: USUAL,
        begins: "",
        goes_on: "
            at 0 ok none
              handed udp6 SOLICIT6.0000
            at 1 ok payload REPLY6_TO_SOLICIT
        ",
    },
    Life {
        name: "Replies that grant nothing, and one without the identifier of the client",
        line: USUAL,
        begins: OFFERED,
        goes_on: "
            at 110 ok payload REPLY6_TO_7
            at 120 ok payload REPLY6_OF_NO_ADDRESS
            at 130 ok payload REPLY6_WITHOUT_SERVER
            at 140 ok payload REPLY6_WITHOUT_CLIENT
              state done LEASE6 50 80 100 200 NO_REST6
        ",
    },
    Life {
        name: "temporary addresses are not renewed",
        line: TEMPORARY,
        begins: "",
        goes_on: "
            at 0 ok none
              handed udp6 SOLICIT6_OF_TEMPORARY.0000
            at 100 ok payload ADVERTISE6_OF_TEMPORARY
              state request
              handed udp6 REQUEST6_OF_TEMPORARY.0000
            at 200 ok payload REPLY6_OF_TEMPORARY
              state done LEASE6_OF_TEMPORARY 0 0 86400 604800 REST6
            at 604800199 ok none
            at 604800200 ok none
              state solicit
              handed udp6 SOLICIT6_OF_TEMPORARY_AGAIN.0000
        ",
    },
];

#[test]
fn each_search_is_printed(rt: HostRuntime) {
    for life in &LIVES {
        let is_printed = is_printed(rt.alloc(), &IPV6, life).expect(&rt, "memory");
        assert!(rt; is_printed, "{}", life.name);
    }
}
