//! Laws of the texts of scripts. Each is a function whose contract says it; a call does nothing.

ghost use Rattle.std.specs.Prelude.{◌≡◌, None};
ghost use Rattle.dhcp4_lease.specs.declared.message_forms.DhcpV4MessageForms.{DhcpV4MessageForms};
ghost use Rattle.dhcp4_lease.specs.declared.message_forms.DhcpV4MessageForms.TheVariants.{Mozim};
ghost use Rattle.dhcp_script.specs.declared.script.Script.{Script};
ghost use Rattle.dhcp_script.specs.declared.script.Script.TheVariants.{V4, V6};
ghost use Rattle.dhcp_script.specs.declared.script4.Script4.{Script4};
ghost use Rattle.dhcp_script.specs.declared.script6.Script6.{Script6};
ghost use Rattle.dhcp_script.specs.declared.version.Version.{Version};
ghost use Rattle.dhcp_script.specs.Script.{IsScript, script_text, script_text_v1, text_in};
ghost use Rattle.dhcp_script.specs.Script4.{config_of};
ghost use Rattle.dhcp_script.specs.Version3.{DifferInForms, saying};

use crate::Script;
use crate::widths::Widths;

/// No text is of version 1 and of a later one, be it of one script or of two.
pub fn no_text_is_of_both_versions()
    ensures { (first second : Script) → script_text_v1 first ≡ script_text second → ⊥ }
{}

/// No text is of both families, in whatever versions.
pub fn no_text_is_of_both_families()
    ensures { (version other : Version) (first : Script4) (second : Script6)
        → text_in version (V4 first) ≡ text_in other (V6 second) → ⊥ }
{}

/// A script of version 2, which says no forms of messages, is that of version 3 which says those of
/// mozim: its client has the same configuration. With whatever forms, the two texts differ in the
/// number of the version and in the line of the forms alone.
pub fn version_2_has_the_forms_of_mozim()
    ensures client { (script : Script4) → script.forms ≡ None →
        config_of (saying Mozim script) ≡ config_of script }
    ensures texts { (forms : DhcpV4MessageForms) (script : Script4) → script.forms ≡ None →
        DifferInForms forms script }
{}

/// The numbers of a script fit their types, its addresses are whole, and the names of its IPv4
/// lease, if it has one, are UTF-8. So `read_script` reads each script back from what
/// `write_script` made of it.
pub fn a_script_fits(script: &Script)
    ensures { IsScript script.now }
{
    script.widths();
}
