//! The exit status of a program.

ghost use Rattle.std.specs.Prelude.{◌≡◌, ◌≢◌};
ghost use Rattle.std.specs.IoError.{error_kind};
ghost use Rattle.dhcp_wire.specs.Error.{no_memory};
ghost use Rattle.dhcp_tool.specs.Status.{status_number};
ghost use Rattle.dhcp_tool.specs.declared.status.Status.TheVariants.{NoMemory, WrongWords};

use dhcp_wire::DhcpError;
use std::io;
use std::io::ErrorKind;

/// How a run of a program ends, with the number of its exit status.
#[derive(Clone, Copy, Debug, PartialEq, Eq)]
pub enum Status {
    /// What the words ask for was done, and all of it written.
    Done = 0,
    /// The words ask for nothing that the program does.
    WrongWords = 1,
    /// What was read is not in the program's format, as the text of a script is.
    NoScript = 2,
    /// The source failed.
    ReadFault = 3,
    /// The sink failed.
    WriteFault = 4,
    /// Out of memory.
    NoMemory = 5,
    /// There are more than 16,777,216 bytes.
    TooLong = 6,
    /// What was read is in that format, but is refused, as a script past its limits is.
    Invalid = 7,
}

impl From<Status> for u8 {
    ghost from_gives = { λ status number. number ≡ status_number status };

    fn from(status: Status) -> u8 {
        status as u8
    }
}

/// The status where the words of the command line cannot be read, by the error of `env::args`: out
/// of memory, and for every other error wrong words, since a word that is not UTF-8 is no word of a
/// program.
pub fn status_without_words(error: &io::Error) -> Status
    ensures memory { error_kind error.now ≡ ErrorKind.OutOfMemory → result ≡ NoMemory }
    ensures other { error_kind error.now ≢ ErrorKind.OutOfMemory → result ≡ WrongWords }
{
    match error.kind() {
        ErrorKind::OutOfMemory => Status::NoMemory,
        _ => Status::WrongWords,
    }
}

/// The status of an error that can only be out of memory.
pub fn out_of_memory(error: DhcpError) -> Status
    requires { error ≡ no_memory }
    ensures { result ≡ NoMemory }
{
    drop(error);
    Status::NoMemory
}
