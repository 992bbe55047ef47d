//! The versions of the texts.

ghost use Rattle.std.specs.Prelude.{◌≡◌};
ghost use Rattle.dhcp_script.specs.Version as versions;

/// The version of a text.
#[derive(Clone, Copy, Debug, PartialEq, Eq)]
pub enum Version {
    /// The first one: of a lease it has the first fields alone, up to the last of its times.
    One,
    /// The later ones, in which texts are written: version 2, and version 3 of a script of an IPv4
    /// client that says the forms of its messages.
    Later,
}

impl Version {
    /// What follows the last of the times of a lease.
    pub fn end_of_times(self) -> u8
        ensures { result ≡ versions.end_of_times self }
    {
        match self {
            Version::One => b'\n',
            Version::Later => b' ',
        }
    }
}
