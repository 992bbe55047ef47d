//! What the words in capitals of IPv6 scripts stand for.

/// The text of a lease up to its times, and what it has behind them.
pub const FIELDS: [(&str, &str); 5] = [
    // An address, and a temporary one, of the server whose identifier is last.
    (
        "LEASE6",
        "na 0 20010db8000000000000000000000010 128 00030001020000000002",
    ),
    (
        "LEASE6_OF_TEMPORARY",
        "ta 0 20010db8000000000000000000000010 128 00030001020000000002",
    ),
    // Where the Reply went to the transaction id 0, where to 8, and where it does not say who the
    // client is, as in version 1.
    (
        "REST6",
        "0 00030001020000000001 00000000000000000000000000000000",
    ),
    (
        "REST6_OF_8",
        "8 00030001020000000001 00000000000000000000000000000000",
    ),
    ("NO_REST6", "0 - 00000000000000000000000000000000"),
];

/// The code and the length of the elapsed time.
pub const ELAPSED: &str = "00080002";

/// Messages: the type, the transaction id and the options. Those of the client lack their elapsed
/// time, which ends them, but for SOLICIT6_OF_PREFIX, which has it before its last option.
pub const PACKETS: [(&str, &str); 25] = [
    // The Solicits of a client: for an address and for a prefix with the transaction id of its
    // first search, for an address with that of its next one, and for a temporary address with each
    // of the two.
    ("SOLICIT6", "01abcdef CLIENT_ID NO_ADDRESS CODES"),
    (
        "SOLICIT6_OF_PREFIX",
        "01abcdef CLIENT_ID CODES 000800020000 NO_PREFIX",
    ),
    ("SOLICIT6_AGAIN", "01000000 CLIENT_ID NO_ADDRESS CODES"),
    (
        "SOLICIT6_OF_TEMPORARY",
        "01abcdef CLIENT_ID NO_TEMPORARY CODES",
    ),
    (
        "SOLICIT6_OF_TEMPORARY_AGAIN",
        "01000000 CLIENT_ID NO_TEMPORARY CODES",
    ),
    // The Advertises of a server: of an address and of a temporary one to that first Solicit, and
    // of an address to the transaction id 0.
    ("ADVERTISE6", "02abcdef CLIENT_ID SERVER_ID ADDRESS"),
    (
        "ADVERTISE6_OF_TEMPORARY",
        "02abcdef CLIENT_ID SERVER_ID GRANTED_TEMPORARY",
    ),
    ("ADVERTISE6_TO_0", "02000000 CLIENT_ID SERVER_ID ADDRESS"),
    // The Requests of an address and of a temporary one.
    ("REQUEST6", "03000000 CLIENT_ID SERVER_ID ADDRESS CODES"),
    (
        "REQUEST6_OF_TEMPORARY",
        "03000000 CLIENT_ID SERVER_ID REQUESTED_TEMPORARY CODES",
    ),
    // The Renews, with the transaction ids 0 and 7, and the Rebinds, with 0 and 8, which name no
    // server.
    ("RENEW6", "05000000 CLIENT_ID SERVER_ID ADDRESS CODES"),
    ("RENEW6_OF_7", "05000007 CLIENT_ID SERVER_ID ADDRESS CODES"),
    ("REBIND6", "06000000 CLIENT_ID ADDRESS CODES"),
    ("REBIND6_OF_8", "06000008 CLIENT_ID ADDRESS CODES"),
    // The Replies of a server to the transaction id 0: with all times, with T1 and T2 left to the
    // client, with no times, with the status NoAddrsAvail, of a temporary address, and without the
    // identifier of the server or of the client.
    ("REPLY6", "07000000 CLIENT_ID SERVER_ID ADDRESS"),
    (
        "REPLY6_OF_DEFAULT_TIMES",
        "07000000 CLIENT_ID SERVER_ID ADDRESS_OF_DEFAULT_TIMES",
    ),
    (
        "REPLY6_OF_NO_TIME",
        "07000000 CLIENT_ID SERVER_ID ADDRESS_OF_NO_TIME",
    ),
    (
        "REPLY6_OF_NO_ADDRESS",
        "07000000 CLIENT_ID SERVER_ID ADDRESS NO_ADDRS_AVAIL",
    ),
    (
        "REPLY6_OF_TEMPORARY",
        "07000000 CLIENT_ID SERVER_ID GRANTED_TEMPORARY",
    ),
    ("REPLY6_WITHOUT_SERVER", "07000000 CLIENT_ID ADDRESS"),
    ("REPLY6_WITHOUT_CLIENT", "07000000 SERVER_ID ADDRESS"),
    // Replies to other transaction ids: of the first Solicit, 7 and 8.
    ("REPLY6_TO_SOLICIT", "07abcdef CLIENT_ID SERVER_ID ADDRESS"),
    ("REPLY6_TO_7", "07000007 CLIENT_ID SERVER_ID ADDRESS"),
    ("REPLY6_TO_8", "07000008 CLIENT_ID SERVER_ID ADDRESS"),
    // The Release of an address.
    ("RELEASE6", "08000000 CLIENT_ID SERVER_ID ADDRESS"),
];

/// Options: the identifiers of the client and of the server; what a Solicit asks for; the
/// association with its address, with all times, with T1 and T2 left to the client, and with no
/// times; that of a temporary address, as it is granted and as it is requested; the codes that are
/// asked for; the status NoAddrsAvail.
pub const PIECES: [(&str, &str); 12] = [
    ("CLIENT_ID", "0001000a00030001020000000001"),
    ("SERVER_ID", "0002000a00030001020000000002"),
    ("NO_ADDRESS", "0003000c *12"),
    ("NO_PREFIX", "00190029 *12 001a0019 *8 3c *16"),
    (
        "ADDRESS",
        "00030028 *4 00000032 00000050 00050018 20010db8000000000000000000000010 00000064 000000c8",
    ),
    (
        "ADDRESS_OF_DEFAULT_TIMES",
        "00030028 *12 00050018 20010db8000000000000000000000010 00000064 000000c8",
    ),
    (
        "ADDRESS_OF_NO_TIME",
        "00030028 *12 00050018 20010db8000000000000000000000010 *8",
    ),
    ("NO_TEMPORARY", "00040004 *4"),
    (
        "GRANTED_TEMPORARY",
        "00040020 *4 00050018 20010db8000000000000000000000010 00000064 000000c8",
    ),
    (
        "REQUESTED_TEMPORARY",
        "00040020 *4 00050018 20010db8000000000000000000000010 00015180 00093a80",
    ),
    ("CODES", "000600020017"),
    ("NO_ADDRS_AVAIL", "000d00020002"),
];
