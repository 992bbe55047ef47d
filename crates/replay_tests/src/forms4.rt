//! The message forms of RFC 2131: whole lives.

use crate::scripts::{IPV4_RFC2131, Life, USUAL, is_printed};

// An Offer and an Ack at once, of a lease of the first server with T1 300, T2 525 and end 600.
const LEASED_AT_ONCE: &str = "
    at 0 ok frame OFFER
      handed frame RFC_DISCOVER
      state selecting
      handed frame RFC_REQUEST
    at 0 ok frame ACK_OF_600
      state done LEASE 300 525 600 REST
";

const LIVES: [Life; 9] = [
    Life {
        name: "an Offer never acknowledged, a Nack of another server, renewal, rebinding, release",
        line: USUAL,
        begins: "",
        goes_on: "
            at 0 ok none
              handed frame RFC_DISCOVER
            at 1000 ok frame OFFER
              state selecting
              handed frame RFC_REQUEST
            at 4000 ok none
              handed frame RFC_REQUEST
            at 11000 ok none
              handed frame RFC_REQUEST
            at 26000 ok none
              handed frame RFC_REQUEST
            at 57000 ok none
              state init_reboot
              handed frame RFC_DISCOVER
            at 58000 ok frame OFFER
              state selecting
              handed frame RFC_REQUEST
            at 58010 ok frame NACK_OF_2
            at 58020 ok frame ACK_OF_600
              state done LEASE 300 525 600 REST
            at 358020 ok none
              state renewing
              handed UNICAST RFC_RENEW
            at 358030 ok payload NACK_OF_2_PAYLOAD
            at 358040 ok payload ACK_OF_600_PAYLOAD
              state done LEASE 300 525 600 REST
            at 883040 ok none
              state renewing
              state rebinding
              handed frame RFC_REBIND
            at 883050 ok frame NACK_OF_2
            at 883060 ok frame ACK_OF_2
              state done LEASE_OF_2 300 525 600 REST
            at 1183060 ok none
              state renewing
              handed UNICAST_TO_2 RFC_RENEW
            at 1183070 ok release
              handed UNICAST_TO_2 RFC_RELEASE_OF_2
              handed frame RFC_DISCOVER
        ",
    },
    Life {
        name: "a lease without a server identifier is renewed at any server",
        line: USUAL,
        begins: "",
        goes_on: "
            at 0 ok frame OFFER
              handed frame RFC_DISCOVER
              state selecting
              handed frame RFC_REQUEST
            at 10 ok frame ACK_OF_NOBODY
              state done LEASE_OF_NOBODY 300 525 600 REST
            at 300010 ok none
              state renewing
              handed frame RFC_REBIND
            at 300020 ok payload ACK_OF_600_PAYLOAD
            at 300040 ok frame ACK_OF_NOBODY
              state done LEASE_OF_NOBODY 300 525 600 REST
            at 300050 ok release
              handed UNICAST RFC_RELEASE
              handed frame RFC_DISCOVER
        ",
    },
    Life {
        name: "any server refuses to renew a lease without a server identifier",
        line: USUAL,
        begins: "",
        goes_on: "
            at 0 ok frame OFFER
              handed frame RFC_DISCOVER
              state selecting
              handed frame RFC_REQUEST
            at 10 ok frame ACK_OF_NOBODY
              state done LEASE_OF_NOBODY 300 525 600 REST
            at 300010 ok none
              state renewing
              handed frame RFC_REBIND
            at 300020 ok frame NACK_OF_2
              state init_reboot
              handed frame RFC_DISCOVER
        ",
    },
    Life {
        name: "a Nack of the server that offered",
        line: USUAL,
        begins: "",
        goes_on: "
            at 0 ok frame OFFER
              handed frame RFC_DISCOVER
              state selecting
              handed frame RFC_REQUEST
            at 10 ok frame NACK
              state init_reboot
              handed frame RFC_DISCOVER
        ",
    },
    Life {
        name: "a Nack of the server that granted the lease",
        line: USUAL,
        begins: LEASED_AT_ONCE,
        goes_on: "
            at 300000 ok none
              state renewing
              handed UNICAST RFC_RENEW
            at 300010 ok payload NACK_PAYLOAD
              state init_reboot
              handed frame RFC_DISCOVER
        ",
    },
    Life {
        name: "a lease that was held before is refused by any server",
        line: "lease LEASE 10 20 30 REST",
        begins: "",
        goes_on: "
            at 0 ok none
              handed frame RFC_REBOOT
            at 10 ok frame NACK_OF_2
              state init_reboot
              handed frame RFC_DISCOVER
        ",
    },
    Life {
        name: "the release of a proxy",
        line: "iface 1 020000000001 1 0",
        begins: LEASED_AT_ONCE,
        goes_on: "
            at 10 ok release
              handed frame RFC_PROXY_RELEASE
              handed frame RFC_DISCOVER
        ",
    },
    Life {
        name: "the forms of mozim, which a script of version 2 has",
        line: "forms mozim",
        begins: "",
        goes_on: "
            at 0 ok frame OFFER
              handed frame DISCOVER
              state selecting
              handed frame REQUEST
            at 10 ok frame NACK_OF_2
              state init_reboot
              handed frame DISCOVER
        ",
    },
    Life {
        name: "renewing and releasing by the forms of mozim",
        line: "forms mozim",
        begins: "",
        goes_on: "
            at 0 ok frame OFFER
              handed frame DISCOVER
              state selecting
              handed frame REQUEST
            at 0 ok frame ACK_OF_600
              state done LEASE 300 525 600 REST
            at 300000 ok none
              state renewing
              handed UNICAST RENEW
            at 300010 ok release
              handed UNICAST RELEASE
              handed frame DISCOVER
        ",
    },
];

#[test]
fn each_life_by_rfc_2131_is_printed(rt: HostRuntime) {
    for life in &LIVES {
        let is_printed = is_printed(rt.alloc(), &IPV4_RFC2131, life).expect(&rt, "memory");
        assert!(rt; is_printed, "{}", life.name);
    }
}
