//! What follows a lease: renewing, rebinding, its release and its end.

use crate::scripts::{IPV4, Life, USUAL, is_printed};

const PROXY: &str = "iface 1 020000000001 1 0";

// A time limit of two seconds.
const LIMIT_OF_2: &str = "iface 1 020000000001 0 2";

// An Offer and an Ack, a second apart.
const LEASED: &str = "
    at 0 ok none
      handed frame DISCOVER
    at 1000 ok frame OFFER
      state selecting
      handed frame REQUEST
    at 2000 ok frame ACK
      state done LEASE 48 85 100 REST
";

// An Offer and an Ack at once, of a lease with T1 300, T2 525 and end 600.
const LEASED_AT_ONCE: &str = "
    at 0 ok frame OFFER
      handed frame DISCOVER
      state selecting
      handed frame REQUEST
    at 0 ok frame ACK_OF_600
      state done LEASE 300 525 600 REST
";

const LIVES: [Life; 14] = [
    Life {
        name: "renewing, rebinding, and the end of the lease",
        line: USUAL,
        begins: LEASED_AT_ONCE,
        goes_on: "
            at 300000 ok none
              state renewing
              handed UNICAST RENEW
            at 412500 ok none
              handed UNICAST RENEW
            at 472500 ok none
              handed UNICAST RENEW
            at 525000 ok none
              state rebinding
              handed frame REBIND
            at 585000 ok none
              handed frame REBIND
            at 600000 ok none
              state init_reboot
              handed frame DISCOVER
        ",
    },
    Life {
        name: "the same with the first renewal refused",
        line: USUAL,
        begins: LEASED_AT_ONCE,
        goes_on: "
            at 300000 refuse none
              state renewing
              refused UNICAST RENEW
            at 412500 ok none
              handed UNICAST RENEW
            at 472500 ok none
              handed UNICAST RENEW
            at 525000 ok none
              state rebinding
              handed frame REBIND
            at 585000 ok none
              handed frame REBIND
            at 600000 ok none
              state init_reboot
              handed frame DISCOVER
        ",
    },
    Life {
        name: "an Ack past T2 is taken and does not answer",
        line: USUAL,
        begins: LEASED_AT_ONCE,
        goes_on: "
            at 300000 ok none
              state renewing
              handed UNICAST RENEW
            at 530000 ok payload ACK_OF_600_PAYLOAD
              state rebinding
              handed frame REBIND
        ",
    },
    Life {
        name: "an Ack answers the request of its own event",
        line: USUAL,
        begins: LEASED_AT_ONCE,
        goes_on: "
            at 300000 ok none
              state renewing
              handed UNICAST RENEW
            at 412600 ok payload ACK_OF_600_PAYLOAD
              handed UNICAST RENEW
              state done LEASE 300 525 600 REST
        ",
    },
    Life {
        name: "a refused request is not answered",
        line: USUAL,
        begins: LEASED_AT_ONCE,
        goes_on: "
            at 300000 ok none
              state renewing
              handed UNICAST RENEW
            at 412600 refuse payload ACK_OF_600_PAYLOAD
              refused UNICAST RENEW
        ",
    },
    Life {
        name: "a release that is refused, and one that is taken",
        line: USUAL,
        begins: LEASED,
        goes_on: "
            at 3000 refuse release
              refused UNICAST RELEASE
              failed io_error
            at 4000 ok release
              handed UNICAST RELEASE
              handed frame DISCOVER
        ",
    },
    Life {
        name: "the releases of a proxy",
        line: PROXY,
        begins: LEASED,
        goes_on: "
            at 3000 refuse release
              refused frame PROXY_RELEASE
              failed io_error
            at 4000 ok release
              handed frame PROXY_RELEASE
              handed frame DISCOVER
        ",
    },
    Life {
        name: "a time limit does not count in a state that is done",
        line: LIMIT_OF_2,
        begins: LEASED_AT_ONCE,
        goes_on: "
            at 3000 ok none
        ",
    },
    Life {
        name: "a Nack of a renewal",
        line: USUAL,
        begins: LEASED_AT_ONCE,
        goes_on: "
            at 300000 ok none
              state renewing
              handed UNICAST RENEW
            at 300010 ok payload NACK_PAYLOAD
              state init_reboot
              handed frame DISCOVER
        ",
    },
    Life {
        name: "a Nack that comes in a frame does not answer a renewal",
        line: USUAL,
        begins: LEASED_AT_ONCE,
        goes_on: "
            at 300000 ok none
              state renewing
              handed UNICAST RENEW
            at 300010 ok frame NACK
        ",
    },
    Life {
        name: "a jump past T1 to just before T2, and to T2",
        line: USUAL,
        begins: LEASED_AT_ONCE,
        goes_on: "
            at 524999 ok none
              state renewing
              handed UNICAST RENEW
            at 525000 ok none
              state rebinding
              handed frame REBIND
        ",
    },
    Life {
        name: "a refused Rebind",
        line: USUAL,
        begins: LEASED_AT_ONCE,
        goes_on: "
            at 525000 refuse frame ACK_OF_600
              state renewing
              state rebinding
              refused frame REBIND
            at 584999 ok frame ACK_OF_600
            at 585000 ok none
              handed frame REBIND
        ",
    },
    Life {
        name: "an Ack of a rebinding request",
        line: USUAL,
        begins: LEASED_AT_ONCE,
        goes_on: "
            at 525000 ok none
              state renewing
              state rebinding
              handed frame REBIND
            at 526000 ok frame ACK_OF_600
              state done LEASE 300 525 600 REST
        ",
    },
    Life {
        name: "a Nack of a rebinding request, which comes in a frame",
        line: USUAL,
        begins: LEASED_AT_ONCE,
        goes_on: "
            at 525000 ok none
              state renewing
              state rebinding
              handed frame REBIND
            at 525010 ok payload NACK_PAYLOAD
            at 525020 ok frame NACK
              state init_reboot
              handed frame DISCOVER
        ",
    },
];

#[test]
fn each_renewal_is_printed(rt: HostRuntime) {
    for life in &LIVES {
        let is_printed = is_printed(rt.alloc(), &IPV4, life).expect(&rt, "memory");
        assert!(rt; is_printed, "{}", life.name);
    }
}
