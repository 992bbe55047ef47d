//! What follows a lease of IPv6: renewing, rebinding, its release and its end.

use crate::scripts::{IPV6, Life, USUAL, is_printed};

const HELD: &str = "lease LEASE6 50 80 100 200 REST6";

// Words of which the Renew draws the transaction id 7, and the Rebind 8.
const IDS: &str =
    "words 00abcdef000000000000000000000000000000000000000000000007000000000000000800000000";

// An Advertise and a Reply, a tenth of a second apart, of a lease with T1 50, T2 80 and end 200.
const LEASED: &str = "
    at 0 ok none
      handed udp6 SOLICIT6.0000
    at 100 ok payload ADVERTISE6
      state request
      handed udp6 REQUEST6.0000
    at 200 ok payload REPLY6
      state done LEASE6 50 80 100 200 REST6
";

const LIVES: [Life; 7] = [
    Life {
        name: "renewing, rebinding, and the end of the lease",
        line: USUAL,
        begins: LEASED,
        goes_on: "
            at 50200 ok none
              state renew
              handed udp6 RENEW6.0000
            at 59200 ok none
              handed udp6 RENEW6.0384
            at 76300 ok none
              handed udp6 RENEW6.0a32
            at 80200 ok none
              state rebind
              handed udp6 REBIND6.0000
            at 89200 ok none
              handed udp6 REBIND6.0384
            at 106300 ok none
              handed udp6 REBIND6.0a32
            at 138790 ok none
              handed udp6 REBIND6.16e3
            at 200200 ok none
              state solicit
              handed udp6 SOLICIT6_AGAIN.0000
        ",
    },
    Life {
        name: "a release that is refused, and one that is taken",
        line: USUAL,
        begins: LEASED,
        goes_on: "
            at 250 refuse release
              refused udp6 RELEASE6.0000
              failed io_error
            at 300 ok release
              handed udp6 RELEASE6.0000
              handed udp6 SOLICIT6_AGAIN.0000
        ",
    },
    Life {
        name: "the release of a lease",
        line: USUAL,
        begins: LEASED,
        goes_on: "
            at 300 ok release
              handed udp6 RELEASE6.0000
              handed udp6 SOLICIT6_AGAIN.0000
        ",
    },
    Life {
        name: "a Reply to the Renew past T2",
        line: IDS,
        begins: LEASED,
        goes_on: "
            at 50200 ok none
              state renew
              handed udp6 RENEW6_OF_7.0000
            at 80300 ok payload REPLY6_TO_7
              state rebind
              handed udp6 REBIND6_OF_8.0000
        ",
    },
    Life {
        name: "a Reply to the Rebind",
        line: IDS,
        begins: LEASED,
        goes_on: "
            at 50200 ok none
              state renew
              handed udp6 RENEW6_OF_7.0000
            at 80300 ok payload REPLY6_TO_8
              state rebind
              handed udp6 REBIND6_OF_8.0000
              state done LEASE6 50 80 100 200 REST6_OF_8
        ",
    },
    Life {
        name: "a lease that was held before is renewed",
        line: HELD,
        begins: "",
        goes_on: "
            at 0 ok none
              handed udp6 RENEW6.0000
            at 100 ok payload REPLY6
              state done LEASE6 50 80 100 200 REST6
        ",
    },
    Life {
        name: "a Reply to the Renew",
        line: USUAL,
        begins: LEASED,
        goes_on: "
            at 50200 ok none
              state renew
              handed udp6 RENEW6.0000
            at 59200 ok payload REPLY6
              handed udp6 RENEW6.0384
              state done LEASE6 50 80 100 200 REST6
        ",
    },
];

#[test]
fn each_renewal_is_printed(rt: HostRuntime) {
    for life in &LIVES {
        let is_printed = is_printed(rt.alloc(), &IPV6, life).expect(&rt, "memory");
        assert!(rt; is_printed, "{}", life.name);
    }
}
