//! A lease that was held before.

use crate::scripts::{IPV4, Life, is_printed};

const HELD: &str = "lease LEASE 10 20 30 REST";

const LIVES: [Life; 6] = [
    Life {
        name: "the request of a lease that was held before",
        line: HELD,
        begins: "",
        goes_on: "
            at 0 ok none
              handed frame REBOOT
        ",
    },
    Life {
        name: "an Ack of that lease",
        line: HELD,
        begins: "",
        goes_on: "
            at 0 ok none
              handed frame REBOOT
            at 1000 ok frame ACK
              state done LEASE 48 85 100 REST
        ",
    },
    Life {
        name: "four requests of that lease, and a new Discover",
        line: HELD,
        begins: "",
        goes_on: "
            at 0 ok none
              handed frame REBOOT
            at 3000 ok none
              handed frame REBOOT
            at 10000 ok none
              handed frame REBOOT
            at 25000 ok none
              handed frame REBOOT
            at 56000 ok none
              state init_reboot
              handed frame DISCOVER
        ",
    },
    Life {
        name: "a refused request of a lease that was held before",
        line: HELD,
        begins: "",
        goes_on: "
            at 0 refuse frame ACK
              refused frame REBOOT
            at 2999 ok frame ACK
            at 3000 ok none
              handed frame REBOOT
        ",
    },
    Life {
        name: "a Nack of a lease that was held before",
        line: HELD,
        begins: "",
        goes_on: "
            at 0 ok none
              handed frame REBOOT
            at 10 ok frame NACK
              state init_reboot
              handed frame DISCOVER
        ",
    },
    Life {
        name: "a release of a lease that was held before",
        line: HELD,
        begins: "",
        goes_on: "
            at 0 ok none
              handed frame REBOOT
            at 10 ok release
              handed UNICAST RELEASE
              handed frame DISCOVER
        ",
    },
];

#[test]
fn each_reboot_is_printed(rt: HostRuntime) {
    for life in &LIVES {
        let is_printed = is_printed(rt.alloc(), &IPV4, life).expect(&rt, "memory");
        assert!(rt; is_printed, "{}", life.name);
    }
}
