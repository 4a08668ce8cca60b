//! What the words of a run ask for.
ghost use Rattle.std.specs.Prelude.{◌≡◌};
ghost use Rattle.swh_words.specs.declared.command.WordsFault.TheVariants.{Memory as OutOfMemory};

use std::alloc::AllocError;
use swh_base::Kind;

/// What a run is asked to do.
#[derive(Debug, Drop)]
pub enum Command<'a> {
    /// To make an archive in a folder.
    Init {
        dir: &'a str,
    },
    /// To load the jobs of a file into the archive in a folder.
    Load {
        dir: &'a str,
        jobs: &'a str,
    },
    /// To ask the archive in a folder by paths, one or more.
    Ask {
        dir: &'a str,
        paths: Vec<&'a str>,
    },
    /// To check the archive in a folder.
    Check {
        dir: &'a str,
    },
    /// To cook the name of a SWHID, which the archive in a folder holds, at a path.
    Cook {
        dir: &'a str,
        swhid: &'a str,
        out: &'a str,
    },
    /// To name the bytes of a file as a body of a kind, which is no directory.
    Identify {
        kind: Kind,
        path: &'a str,
    },
    /// To name a folder as a directory.
    IdentifyFolder {
        path: &'a str,
    },
}

/// Why words give no command.
#[derive(Clone, Copy, Debug, PartialEq, Eq)]
pub enum WordsFault {
    /// The words are no command.
    Words,
    /// Memory ran out.
    Memory,
}

impl From<AllocError> for WordsFault {
    ghost from_gives = { λ _ fault. fault ≡ OutOfMemory };

    fn from(_e: AllocError) -> WordsFault {
        WordsFault::Memory
    }
}
