//! The errors of a client's calls: out of memory as one of them, and each as `DhcpError`.

use crate::{ReleaseError, RunError};
use dhcp_wire::{DhcpError, ErrorKind, FixedText};
use std::alloc::AllocError;

impl From<AllocError> for RunError {
    ghost use Rattle.std.specs.Prelude.{◌≡◌};
    ghost use Rattle.dhcp_history.specs.declared.machine.RunError.{RunError};

    ghost from_gives = { λ _ given. given ≡ RunError.OutOfMemory };

    fn from(_error: AllocError) -> RunError {
        RunError::OutOfMemory
    }
}

impl From<AllocError> for ReleaseError {
    ghost use Rattle.std.specs.Prelude.{◌≡◌};
    ghost use Rattle.dhcp_history.specs.declared.release.ReleaseError.{ReleaseError};

    ghost from_gives = { λ _ given. given ≡ ReleaseError.OutOfMemory };

    fn from(_error: AllocError) -> ReleaseError {
        ReleaseError::OutOfMemory
    }
}

impl From<RunError> for DhcpError {
    ghost use Rattle.std.specs.Prelude.{◌≡◌};
    ghost use Rattle.dhcp_history.specs.Errors.{error_of_run};

    ghost from_gives = { λ error given. given ≡ error_of_run error };

    fn from(error: RunError) -> DhcpError {
        match error {
            RunError::TimedOut => DhcpError::new_fixed(ErrorKind::Timeout, FixedText::TimedOut),
            RunError::OutOfMemory => DhcpError::out_of_memory(),
        }
    }
}

impl From<ReleaseError> for DhcpError {
    ghost use Rattle.std.specs.Prelude.{◌≡◌};
    ghost use Rattle.dhcp_history.specs.Errors.{error_of_release};

    ghost from_gives = { λ error given. given ≡ error_of_release error };

    fn from(error: ReleaseError) -> DhcpError {
        match error {
            ReleaseError::Refused => DhcpError::new_fixed(ErrorKind::IoError, FixedText::Refused),
            ReleaseError::OutOfMemory => DhcpError::out_of_memory(),
        }
    }
}
