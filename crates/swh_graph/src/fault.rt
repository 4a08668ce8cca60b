//! Why a call over the graph gives no value.

ghost use Rattle.std.specs.Prelude.{◌≡◌};
ghost use Rattle.swh_graph.specs.declared.fault.GraphFault.TheVariants.{Memory as OutOfMemory};

use swh_base::{Memory, Name};

/// Why a call over the graph gives no value.
#[derive(Clone, Copy, Debug, PartialEq, Eq)]
pub enum GraphFault {
    /// A name that the call reads is not held: the first in the call's order.
    NotHeld { name: Name },
    /// The component of this number, from 0, leads nowhere. Where there is no root to begin at it is 0; where the path ends
    /// at another object than the one that is asked for, it is the number of the components.
    NoPath { component: u64 },
    /// Memory ran out.
    Memory,
}

impl From<Memory> for GraphFault {
    ghost from_gives = { λ _ e. e ≡ OutOfMemory };

    fn from(_e: Memory) -> GraphFault {
        GraphFault::Memory
    }
}
