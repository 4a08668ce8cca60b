// How the process ends.
ghost use Rattle.std.specs.Prelude.{◌≡◌};
ghost use Rattle.std.specs.Process.{exit_status};

use std::io::Eprint;
use std::marker::Model;
use std::process::{ExitCode, Termination};

/// The end of a run, which `main` gives as it is. A contract sees its status.
#[derive(Drop)]
pub struct End {
    status: u8,
}

impl Model for End {
    ghost use Rattle.std.specs.Prelude.{ℕ};

    ghost Value = { ℕ };

    ghost view = { λ end. end.status };
}

impl End {
    // Only a run makes one.
    pub(crate) fn with(status: u8) -> Self
        ensures { result ≡ status }
    {
        End { status }
    }

    /// The status, as `run` gives it.
    pub fn status(&self) -> u8
        ensures { result ≡ self.now }
    {
        self.status
    }
}

impl Termination for End {
    fn report<R: Eprint>(self, _rt: &R) -> ExitCode
        ensures { exit_status result ≡ self }
    {
        ExitCode::from(self.status)
    }
}
