//! Why bytes are no revision, or no release.

ghost use Rattle.std.specs.Prelude.{◌≡◌, ℕ, List};
ghost use Rattle.swh_base.specs.declared.kind.Kind.{Kind};
ghost use Rattle.swh_revfmt.specs.Fault.{IsRevFault};
ghost use Rattle.swh_revfmt.specs.declared.fault.ReadRevFault.TheVariants.{Memory as RevMemory};
ghost use Rattle.swh_revfmt.specs.declared.fault.ReadRelFault.TheVariants.{Memory as RelMemory};

use std::alloc::AllocFailed;
use swh_base::Memory;

/// A body that is no revision: the longest front of it that some revision continues has this many bytes.
#[derive(Clone, Copy, Debug, PartialEq, Eq)]
pub struct BadRev {
    pub at: u64,
}

/// A body that is no release: the longest front of it that some release continues has this many bytes.
#[derive(Clone, Copy, Debug, PartialEq, Eq)]
pub struct BadRel {
    pub at: u64,
}

/// Why a body gives no parts of a revision.
#[derive(Clone, Copy, Debug, PartialEq, Eq)]
pub enum ReadRevFault {
    /// Memory ran out.
    Memory,
    /// The body is no revision.
    Bad(BadRev),
}

/// Why a body gives no parts of a release.
#[derive(Clone, Copy, Debug, PartialEq, Eq)]
pub enum ReadRelFault {
    /// Memory ran out.
    Memory,
    /// The body is no release.
    Bad(BadRel),
}

impl From<Memory> for ReadRevFault {
    ghost from_gives = { λ _ e. e ≡ RevMemory };

    fn from(_e: Memory) -> ReadRevFault {
        ReadRevFault::Memory
    }
}

impl From<Memory> for ReadRelFault {
    ghost from_gives = { λ _ e. e ≡ RelMemory };

    fn from(_e: Memory) -> ReadRelFault {
        ReadRelFault::Memory
    }
}

/// A body has one fault at most, since the longest prefix that some body continues has one length.
pub fn one_fault()
    ensures { (kind : Kind) (body : List ℕ) (i j : ℕ) → IsRevFault kind body i → IsRevFault kind body j → i ≡ j }
{}
