//! The options of a message.

ghost use Rattle.std.specs.Prelude.{◌≡◌, ◌⊎◌, IfErr, IfOk, IfSome, IsSomeAnd, MatchOption, None, OnErr, OnOk, Some};
ghost use Rattle.std.specs.FinMap as map;
ghost use Rattle.dhcp_wire.specs.Error.{no_memory};
ghost use Rattle.dhcp4_msg.specs.OptionCode.{number_of};
ghost use Rattle.dhcp4_msg.specs.Options.{option_at};
ghost use Rattle.dhcp4_msg.specs.Value.{option_number};

use dhcp_wire::{Buffer, DhcpError, ErrorKind};
use dhcp4_msg::{DhcpV4Option, DhcpV4OptionCode, DhcpV4Options};
use std::alloc::Global;
use std::net::Ipv4Addr;

/// Copies the option of a code from some options to others, if there is one: what was kept can be
/// inserted, and stands under the same code.
pub fn copy_option(
    alloc: Global,
    from: &DhcpV4Options,
    to: &mut DhcpV4Options,
    code: DhcpV4OptionCode,
) -> Result<(), DhcpError>
    ensures copied { IfOk result (λ _. MatchOption (map.get from.now (number_of code))
        (to.new ≡ to.old)
        (λ option. to.new ≡ map.insert to.old (number_of code) option)) }
    ensures error { IfErr result (λ e. (e ≡ no_memory) × (to.new ≡ to.old)) }
{
    if let Some(option) = from.get(code) {
        to.insert(option.try_clone(alloc)?)?;
    }
    Ok(())
}

/// Reads an option and puts it among others: what was read can be inserted.
pub fn insert_parsed(alloc: Global, bytes: &[u8], to: &mut DhcpV4Options) -> Result<(), DhcpError>
    ensures inserted { OnOk result (IsSomeAnd (option_at bytes.now).0
        (λ option. to.new ≡ map.insert to.old (option_number option) option)) }
    ensures refused { IfErr result (λ e. (e ≡ no_memory)
        ⊎ ((e.kind ≡ ErrorKind.InvalidDhcpMessage) × ((option_at bytes.now).0 ≡ None))) }
    ensures unchanged { OnErr result (to.new ≡ to.old) }
{
    let option = DhcpV4Option::parse(alloc, &mut Buffer::new(bytes))?;
    to.insert(option)
}

/// The subnet mask of some options: what stands under its code is a subnet mask.
pub fn subnet_mask(options: &DhcpV4Options) -> Option<Ipv4Addr>
    ensures mask { IfSome result (λ mask.
        map.get options.now (number_of DhcpV4OptionCode.SubnetMask)
        ≡ Some (DhcpV4Option.SubnetMask mask)) }
    ensures none { result ≡ None
        → map.get options.now (number_of DhcpV4OptionCode.SubnetMask) ≡ None }
{
    match options.get(DhcpV4OptionCode::SubnetMask) {
        Some(DhcpV4Option::SubnetMask(mask)) => Some(*mask),
        Some(_) => unreachable!("the option of code 1 is a subnet mask"),
        None => None,
    }
}
