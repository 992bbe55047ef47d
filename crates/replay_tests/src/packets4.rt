//! What the words in capitals of IPv4 scripts stand for.

/// The addresses of a lease; what else its text has where the Ack says nothing of it, and where it
/// says all that a usual server does; the carrier from the client's address to the server's. The
/// second server is 192.0.2.2, and names no next server.
pub const FIELDS: [(&str, &str); 7] = [
    ("LEASE", "192.0.2.10 192.0.2.1 192.0.2.1"),
    ("LEASE_OF_NOBODY", "192.0.2.10 192.0.2.1 0.0.0.0"),
    ("LEASE_OF_2", "192.0.2.10 0.0.0.0 192.0.2.2"),
    ("UNICAST_TO_2", "udp4 192.0.2.10 192.0.2.2"),
    ("REST", "0.0.0.0 none none none none none none none none"),
    (
        "USUAL_REST",
        "255.255.255.0 192.0.2.255 none 192.0.2.1 192.0.2.1 none 666f6f 6c616e none",
    ),
    ("UNICAST", "udp4 192.0.2.10 192.0.2.1"),
];

/// Packets: headers, but of a payload; the message up to `chaddr`, and from there to the cookie;
/// options. Those with `RFC` are what a client sends by the forms of RFC 2131.
pub const PACKETS: [(&str, &str); 30] = [
    (
        "RFC_DISCOVER",
        "CLIENT RFC_DISCOVER_IP PLAIN CHADDR RFC_DISCOVER_OPTIONS",
    ),
    (
        "RFC_REQUEST",
        "CLIENT RFC_REQUEST_IP PLAIN CHADDR RFC_REQUEST_OPTIONS",
    ),
    (
        "RFC_REBOOT",
        "CLIENT RFC_REBOOT_IP PLAIN CHADDR RFC_REBOOT_OPTIONS",
    ),
    (
        "RFC_REBIND",
        "CLIENT RFC_REBIND_IP BOUND CHADDR RFC_RENEW_OPTIONS",
    ),
    (
        "RFC_PROXY_RELEASE",
        "CLIENT RFC_PROXY_IP BOUND CHADDR RFC_RELEASE_OPTIONS",
    ),
    ("RFC_RENEW", "BOUND CHADDR RFC_RENEW_OPTIONS"),
    ("RFC_RELEASE", "BOUND CHADDR RFC_RELEASE_OPTIONS"),
    ("RFC_RELEASE_OF_2", "BOUND CHADDR RFC_RELEASE_OF_2_OPTIONS"),
    ("ACK_OF_NOBODY", "SERVER_262 REPLY CHADDR OPTIONS_OF_NOBODY"),
    ("ACK_OF_2", "SERVER_268 REPLY_OF_2 CHADDR OPTIONS_OF_2"),
    ("NACK_OF_2", "SERVER REPLY_OF_2 CHADDR NACK_OF_2_OPTIONS"),
    ("NACK_OF_2_PAYLOAD", "REPLY_OF_2 CHADDR NACK_OF_2_OPTIONS"),
    (
        "DISCOVER",
        "CLIENT DISCOVER_IP PLAIN CHADDR DISCOVER_OPTIONS",
    ),
    ("REQUEST", "CLIENT REQUEST_IP PLAIN CHADDR REQUEST_OPTIONS"),
    ("REBOOT", "CLIENT REBOOT_IP PLAIN CHADDR REBOOT_OPTIONS"),
    ("REBIND", "CLIENT REBIND_IP BOUND CHADDR REQUEST_OPTIONS"),
    (
        "PROXY_RELEASE",
        "CLIENT PROXY_IP PLAIN CHADDR RELEASE_OPTIONS",
    ),
    ("RENEW", "BOUND CHADDR REQUEST_OPTIONS"),
    ("RELEASE", "PLAIN CHADDR RELEASE_OPTIONS"),
    ("OFFER", "SERVER REPLY CHADDR OFFER_OPTIONS"),
    ("OFFER_TO_ANOTHER", "SERVER FOREIGN CHADDR OFFER_OPTIONS"),
    (
        "OFFER_TO_PORT_67",
        "SERVER_TO_PORT_67 REPLY CHADDR OFFER_OPTIONS",
    ),
    ("OFFER_PAYLOAD", "REPLY CHADDR OFFER_OPTIONS"),
    ("ACK", "SERVER REPLY CHADDR ACK_OPTIONS"),
    ("ACK_OF_NO_TIME", "SERVER REPLY CHADDR NO_TIME_OPTIONS"),
    ("ACK_OF_600", "SERVER_268 REPLY CHADDR OPTIONS_OF_600"),
    ("ACK_OF_600_PAYLOAD", "REPLY CHADDR OPTIONS_OF_600"),
    ("USUAL_ACK", "SERVER_302 REPLY CHADDR USUAL_OPTIONS"),
    ("NACK", "SERVER REPLY CHADDR NACK_OPTIONS"),
    ("NACK_PAYLOAD", "REPLY CHADDR NACK_OPTIONS"),
];

/// The pieces of packets; `*8` stands for eight zero bytes.
pub const PIECES: [(&str, &str); 41] = [
    // The Ethernet header of what a client sends, and the headers of what the server 192.0.2.1
    // sends, whose checksums are 0: payloads of 256, 262, 268 and 302 bytes, and one of 256 to the
    // wrong port.
    ("CLIENT", "ffffffffffff 020000000001 0800"),
    (
        "SERVER",
        "ffffffffffff 020000000002 0800 4500011c 00000000 40110000 c0000201 ffffffff 00430044 \
        01080000",
    ),
    (
        "SERVER_262",
        "ffffffffffff 020000000002 0800 45000122 00000000 40110000 c0000201 ffffffff 00430044 \
        010e0000",
    ),
    (
        "SERVER_268",
        "ffffffffffff 020000000002 0800 45000128 00000000 40110000 c0000201 ffffffff 00430044 \
        01140000",
    ),
    (
        "SERVER_302",
        "ffffffffffff 020000000002 0800 4500014a 00000000 40110000 c0000201 ffffffff 00430044 \
        01360000",
    ),
    (
        "SERVER_TO_PORT_67",
        "ffffffffffff 020000000002 0800 4500011c 00000000 40110000 c0000201 ffffffff 00430043 \
        01080000",
    ),
    // IPv4 and UDP headers of what a client sends.
    (
        "DISCOVER_IP",
        "45000117 00004000 8011f9d6 00000000 ffffffff 00440043 01035c8d",
    ),
    (
        "REQUEST_IP",
        "45000123 00004000 8011f9ca 00000000 ffffffff 00440043 010f606e",
    ),
    (
        "REBIND_IP",
        "45000123 00004000 8011f9ca 00000000 ffffffff 00440043 010f9e63",
    ),
    (
        "REBOOT_IP",
        "4500011d 00004000 8011f9d0 00000000 ffffffff 00440043 01096672",
    ),
    (
        "PROXY_IP",
        "45000123 00004000 801175be c000020a c0000201 00440043 010fd861",
    ),
    (
        "RFC_DISCOVER_IP",
        "45000115 00004000 8011f9d8 00000000 ffffffff 00440043 01019991",
    ),
    (
        "RFC_REQUEST_IP",
        "45000121 00004000 8011f9cc 00000000 ffffffff 00440043 010d9d72",
    ),
    (
        "RFC_REBIND_IP",
        "45000115 00004000 8011f9d8 00000000 ffffffff 00440043 0101d586",
    ),
    (
        "RFC_REBOOT_IP",
        "4500011b 00004000 8011f9d2 00000000 ffffffff 00440043 0107a376",
    ),
    (
        "RFC_PROXY_IP",
        "4500011b 00004000 801175c6 c000020a c0000201 00440043 01074776",
    ),
    // Messages up to `chaddr`: of a client without and with an address, of the server to the
    // client's transaction id and to another, and of the second server.
    ("PLAIN", "01010600 12345678 *20"),
    ("BOUND", "01010600 12345678 00000000 c000020a *12"),
    ("REPLY", "02010600 12345678 *8 c000020a c0000201 00000000"),
    ("FOREIGN", "02010600 12345679 *8 c000020a c0000201 00000000"),
    ("REPLY_OF_2", "02010600 12345678 *8 c000020a *8"),
    // The MAC address 02:00:00:00:00:01, zero bytes, and the cookie.
    ("CHADDR", "020000000001 *202 63825363"),
    ("DISCOVER_OPTIONS", "350101 3703010306 3d00 ff"),
    (
        "REQUEST_OPTIONS",
        "3204c000020a 350103 3604c0000201 3703010306 3d00 ff",
    ),
    ("REBOOT_OPTIONS", "3204c000020a 350103 3703010306 3d00 ff"),
    (
        "RELEASE_OPTIONS",
        "3204c000020a 350107 3604c0000201 3703010306 3d00 ff",
    ),
    ("RFC_DISCOVER_OPTIONS", "350101 3703010306 ff"),
    (
        "RFC_REQUEST_OPTIONS",
        "3204c000020a 350103 3604c0000201 3703010306 ff",
    ),
    ("RFC_REBOOT_OPTIONS", "3204c000020a 350103 3703010306 ff"),
    ("RFC_RENEW_OPTIONS", "350103 3703010306 ff"),
    ("RFC_RELEASE_OPTIONS", "350107 3604c0000201 3703010306 ff"),
    (
        "RFC_RELEASE_OF_2_OPTIONS",
        "350107 3604c0000202 3703010306 ff",
    ),
    (
        "OPTIONS_OF_NOBODY",
        "350105 330400000258 3a040000012c 3b040000020d ff",
    ),
    (
        "OPTIONS_OF_2",
        "350105 3604c0000202 330400000258 3a040000012c 3b040000020d ff",
    ),
    ("NACK_OF_2_OPTIONS", "350106 3604c0000202 330400000064 ff"),
    ("OFFER_OPTIONS", "350102 3604c0000201 330400000064 ff"),
    ("ACK_OPTIONS", "350105 3604c0000201 330400000064 ff"),
    ("NO_TIME_OPTIONS", "350105 3604c0000201 330400000000 ff"),
    ("NACK_OPTIONS", "350106 3604c0000201 330400000064 ff"),
    (
        "OPTIONS_OF_600",
        "350105 3604c0000201 330400000258 3a040000012c 3b040000020d ff",
    ),
    (
        "USUAL_OPTIONS",
        "350105 3604c0000201 330400000e10 3a0400000708 3b0400000c4e 0104ffffff00 1c04c00002ff \
        0304c0000201 0604c0000201 0c03666f6f 0f036c616e ff",
    ),
];
