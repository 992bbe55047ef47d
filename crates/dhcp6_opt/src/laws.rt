//! Laws: what is written reads back, and which options a list has. A call does nothing.

ghost use Rattle.std.specs.Prelude.{[], ◌≡◌, ◌<◌, ◌^◌, ◌++◌, ℕ, List, Some, length, IsTrue};
ghost use Rattle.std.specs.List.{AllByRecursion, filter, filter_map, flat_map, list_all};
ghost use Rattle.std.specs.Str.{IsUtf8};
ghost use Rattle.std.specs.declared.net.Ipv6Addr.{Ipv6Addr};
ghost use Rattle.dhcp_wire.specs.RawOption.{raw_options};
ghost use Rattle.dhcp_wire.specs.declared.raw_option.OptionFormat.TheVariants.{DhcpV6};
ghost use Rattle.dhcp6_opt.specs.DomainName.{name_fits, names_in, written_name};
ghost use Rattle.dhcp6_opt.specs.Duid.{duid_in, written_duid};
ghost use Rattle.dhcp6_opt.specs.Ia.{ia_na_in, ia_pd_in, ia_ta_in, written_ia_na, written_ia_pd, written_ia_ta};
ghost use Rattle.dhcp6_opt.specs.Laws.{AddressIsInRange, AllStand, AreBytes, AreInRange, duid_read_back, DuidHasWidths, HasOwnType, HasType, HasWidths, IaNaHasWidths, IaPdHasWidths, IaTaHasWidths, IsInRange, NtpServerHasWidths, options_read_back, PrefixIsInRange, read_back};
ghost use Rattle.dhcp6_opt.specs.NtpServer.{ntp_server_fits, ntp_servers_in, written_ntp_server};
ghost use Rattle.dhcp6_opt.specs.OptionCode.{code_of, number_of};
ghost use Rattle.dhcp6_opt.specs.OptionIndex.{has_number};
ghost use Rattle.dhcp6_opt.specs.Options.{option_at, OptionLists, options_under, read_options, reading_of, with_options, written_options};
ghost use Rattle.dhcp6_opt.specs.Status.{status_number, status_of};
ghost use Rattle.dhcp6_opt.specs.Value.{fits, written_option};
ghost use Rattle.dhcp6_opt.specs.VariantOrder.{DuidsRise, IsBeforeUnknown, StatusesRise, TimeServersRise};

use crate::widths::{Widths, all_have};
use crate::{
    DhcpV6Duid, DhcpV6DuidEnterpriseNumber, DhcpV6DuidLinkLayerAddr,
    DhcpV6DuidLinkLayerAddrPlusTime, DhcpV6DuidUuid, DhcpV6Option, DhcpV6OptionIaNa,
    DhcpV6OptionIaPd, DhcpV6OptionIaTa, DhcpV6OptionNtpServer, DhcpV6OptionUnknown, DhcpV6Options,
};

/// The number of the code of a number is that number; the same of status codes.
pub fn codes_read_back()
    ensures options { (number : ℕ) → number_of (code_of number) ≡ number }
    ensures statuses { (number : ℕ) → status_number (status_of number) ≡ number }
{}

/// Status codes are ordered as RFC 8415, section 21.13 numbers them, identifiers and time servers
/// by the number of their type; those without a name are the greatest. Of options of one number,
/// one that this library does not read is the greatest.
#[tactic(auto, unfolding(crate::specs::fields_of))]
pub fn variants_are_ordered_as_declared()
    ensures statuses { (number : ℕ) → StatusesRise number }
    ensures identifiers { (timed : DhcpV6DuidLinkLayerAddrPlusTime)
        (vendor : DhcpV6DuidEnterpriseNumber) (address : DhcpV6DuidLinkLayerAddr)
        (uuid : DhcpV6DuidUuid) (bytes : List ℕ)
        → DuidsRise timed vendor address uuid bytes }
    ensures time_servers { (server group : Ipv6Addr) (name : List ℕ) (other : ℕ × List ℕ)
        → TimeServersRise server group name other }
    ensures options { (option : DhcpV6Option) (unknown : DhcpV6OptionUnknown)
        → IsBeforeUnknown option unknown }
{}

/// What was read from a list has under a number the options of that number that read, in the order
/// in which they stand there. So, by the law `options_of_a_prefix` of dhcp_wire, a truncated list
/// shows no option that the whole list has not.
pub fn options_stay_in_order()
    ensures { (bytes : List ℕ) (number : ℕ)
        → options_under (read_options bytes) number
        ≡ filter (has_number number) (filter_map reading_of (raw_options DhcpV6 bytes)) }
{}

/// An identifier is written as the bytes that it was read from.
pub fn identifiers_are_written_as_read()
    ensures { (bytes : List ℕ) (duid : DhcpV6Duid)
        → AreBytes bytes
        → duid_in bytes ≡ Some duid
        → written_duid duid ≡ bytes }
{}

/// An identifier of two bytes or more, whose numbers have their widths, reads back, and as the same
/// bytes; one that is not kept as its bytes alone reads back as it is.
pub fn identifiers_read_back()
    ensures read { (duid : DhcpV6Duid)
        → DuidHasWidths duid
        → HasType duid
        → duid_in (written_duid duid) ≡ Some (duid_read_back duid) }
    ensures bytes { (duid : DhcpV6Duid)
        → DuidHasWidths duid
        → written_duid (duid_read_back duid) ≡ written_duid duid }
{}

/// An association reads back if its numbers have their widths and its address or prefix is whole,
/// the messages of its statuses are UTF-8, its status codes without a name have numbers without a
/// name, and its written value is short enough for an option.
pub fn associations_read_back()
    ensures na { (ia : DhcpV6OptionIaNa)
        → IaNaHasWidths ia
        → AddressIsInRange ia.address ia.status
        → length (written_ia_na ia) < 2 ^ 16
        → ia_na_in (written_ia_na ia) ≡ Some ia }
    ensures ta { (ia : DhcpV6OptionIaTa)
        → IaTaHasWidths ia
        → AddressIsInRange ia.address ia.status
        → length (written_ia_ta ia) < 2 ^ 16
        → ia_ta_in (written_ia_ta ia) ≡ Some ia }
    ensures pd { (ia : DhcpV6OptionIaPd)
        → IaPdHasWidths ia
        → PrefixIsInRange ia.prefix ia.status
        → length (written_ia_pd ia) < 2 ^ 16
        → ia_pd_in (written_ia_pd ia) ≡ Some ia }
{}

/// Names of UTF-8 that can be written read back.
pub fn names_read_back()
    ensures { (names : List (List ℕ))
        → AllByRecursion IsUtf8 names
        → IsTrue (list_all name_fits names)
        → names_in (flat_map written_name names) ≡ Some names }
{}

/// Time servers read back if their addresses are whole, their names are UTF-8 and can be written,
/// any other suboption has a type of two bytes that has no name, and their written values together
/// are short enough for an option.
pub fn time_servers_read_back()
    ensures { (servers : List DhcpV6OptionNtpServer)
        → AllByRecursion NtpServerHasWidths servers
        → IsTrue (list_all ntp_server_fits servers)
        → AllByRecursion HasOwnType servers
        → length (flat_map written_ntp_server servers) < 2 ^ 16
        → ntp_servers_in (flat_map written_ntp_server servers) ≡ Some servers }
{}

/// An option that fits, has the widths of its types and is in range reads back, whatever follows
/// it.
pub fn options_read_back()
    ensures { (option : DhcpV6Option) (rest : List ℕ)
        → IsTrue (fits option)
        → HasWidths option
        → IsInRange option
        → option_at (written_option option ++ rest) ≡ (Some (read_back option), rest) }
{}

/// Options that stand under their numbers and are in range read back as they are written: by rising
/// number, those of one number in their order; and then come the options of what follows.
pub fn option_lists_read_back()
    ensures alone { (options : OptionLists)
        → AllStand options
        → AreInRange options
        → read_options (written_options options) ≡ options_read_back options }
    ensures before { (options : OptionLists) (rest : List ℕ)
        → AllStand options
        → AreInRange options
        → read_options (written_options options ++ rest)
        ≡ with_options (options_read_back options)
        (filter_map reading_of (raw_options DhcpV6 rest)) }
{}

/// An identifier that a caller holds, of two bytes or more, reads back, and as the same bytes.
pub fn identifier_reads_back(duid: &DhcpV6Duid)
    ensures read { HasType duid.now
        → duid_in (written_duid duid.now) ≡ Some (duid_read_back duid.now) }
    ensures bytes { written_duid (duid_read_back duid.now) ≡ written_duid duid.now }
{
    duid.widths();
}

/// An IA_NA that a caller holds reads back, if its status codes without a name, also that of its
/// address, have numbers without a name, and its written value is short enough for an option.
pub fn ia_na_reads_back(ia: &DhcpV6OptionIaNa)
    ensures { AddressIsInRange ia.now.address ia.now.status
        → length (written_ia_na ia.now) < 2 ^ 16
        → ia_na_in (written_ia_na ia.now) ≡ Some ia.now }
{
    ia.widths();
}

/// An IA_TA that a caller holds reads back, if its status codes without a name, also that of its
/// address, have numbers without a name, and its written value is short enough for an option.
pub fn ia_ta_reads_back(ia: &DhcpV6OptionIaTa)
    ensures { AddressIsInRange ia.now.address ia.now.status
        → length (written_ia_ta ia.now) < 2 ^ 16
        → ia_ta_in (written_ia_ta ia.now) ≡ Some ia.now }
{
    ia.widths();
}

/// An IA_PD that a caller holds reads back, if its status codes without a name, also that of its
/// prefix, have numbers without a name, and its written value is short enough for an option.
pub fn ia_pd_reads_back(ia: &DhcpV6OptionIaPd)
    ensures { PrefixIsInRange ia.now.prefix ia.now.status
        → length (written_ia_pd ia.now) < 2 ^ 16
        → ia_pd_in (written_ia_pd ia.now) ≡ Some ia.now }
{
    ia.widths();
}

/// Time servers that a caller holds read back, if their names can be written, any other suboption
/// has a type that has no name, and their written values together are short enough for an option.
pub fn time_server_list_reads_back(servers: &[DhcpV6OptionNtpServer])
    ensures { IsTrue (list_all ntp_server_fits servers.now)
        → AllByRecursion HasOwnType servers.now
        → length (flat_map written_ntp_server servers.now) < 2 ^ 16
        → ntp_servers_in (flat_map written_ntp_server servers.now) ≡ Some servers.now }
{
    all_have(servers);
}

/// An option that a caller holds reads back, whatever follows it, if it fits and is in range.
pub fn option_reads_back(option: &DhcpV6Option)
    ensures alone { IsTrue (fits option.now)
        → IsInRange option.now
        → option_at (written_option option.now) ≡ (Some (read_back option.now), []) }
    ensures before { (rest : List ℕ)
        → IsTrue (fits option.now)
        → IsInRange option.now
        → option_at (written_option option.now ++ rest) ≡ (Some (read_back option.now), rest) }
{
    option.widths();
}

/// Options that a caller holds read back as they are written, if they are in range: by rising
/// number, those of one number in their order; and then come the options of what follows.
pub fn option_list_reads_back(options: &DhcpV6Options)
    ensures alone { AreInRange options.now
        → read_options (written_options options.now) ≡ options_read_back options.now }
    ensures before { (rest : List ℕ)
        → AreInRange options.now
        → read_options (written_options options.now ++ rest)
        ≡ with_options (options_read_back options.now)
        (filter_map reading_of (raw_options DhcpV6 rest)) }
{
    options.stand();
}
