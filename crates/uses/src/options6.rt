//! Options of DHCPv6.

ghost use Rattle.std.specs.Prelude.{◌≡◌, IfErr, IfOk, None, Some, if◌then◌else◌};
ghost use Rattle.dhcp_wire.specs.Error.{no_memory};
ghost use Rattle.dhcp6_opt.specs.OptionCode.{number_of};
ghost use Rattle.dhcp6_opt.specs.Options.{first_of, with_option};
ghost use Rattle.dhcp6_opt.specs.Value.{fits};
ghost use Rattle.dhcp6_opt.specs.declared.status.DhcpV6OptionStatus.{DhcpV6OptionStatus};
ghost use Rattle.uses.specs.Options6.{prefix_request};

use dhcp_wire::DhcpError;
use dhcp6_opt::{
    DhcpV6Option, DhcpV6OptionCode, DhcpV6OptionIaPd, DhcpV6OptionStatusCode, DhcpV6Options,
};

/// Asks for a prefix of this length in bits: says whether the association was put among the
/// options.
pub fn ask_for_prefix(
    options: &mut DhcpV6Options,
    prefix_len: u8,
    iaid: u32,
) -> Result<bool, DhcpError>
    ensures asked { IfOk result (λ asked. options.new ≡ (if asked
        then with_option options.old (prefix_request prefix_len iaid) else options.old)) }
    ensures fits { IfOk result (λ asked. asked ≡ fits (prefix_request prefix_len iaid)) }
    ensures error { IfErr result (λ e. (e ≡ no_memory) × (options.new ≡ options.old)) }
{
    let option = DhcpV6Option::IAPD(DhcpV6OptionIaPd::new_with_hint(prefix_len, iaid));
    match Some(option).filter(DhcpV6Option::fits) {
        Some(option) => {
            options.insert(option)?;
            Ok(true)
        }
        None => Ok(false),
    }
}

/// What a server says of the whole message: the code of its first status option.
pub fn status_of(options: &DhcpV6Options) -> Option<DhcpV6OptionStatusCode>
    ensures status { (status : DhcpV6OptionStatus)
        → first_of options.now (number_of DhcpV6OptionCode.StatusCode)
        ≡ Some (DhcpV6Option.StatusCode status)
        → result ≡ Some status.status }
    ensures none { first_of options.now (number_of DhcpV6OptionCode.StatusCode) ≡ None
        → result ≡ None }
{
    match options.get_first(DhcpV6OptionCode::StatusCode) {
        Some(DhcpV6Option::StatusCode(status)) => Some(status.status),
        _ => None,
    }
}
