//! What an input makes, whatever its form: objects, each given out once and after all that it names, with their
//! snapshot.
//! Stands on `swh_base` and `swh_object`, and on the definitions of `swh_model`.
//! Callers may rely on: a body of its kind makes an object, unless it is above the limit; an object is told to be new
//! exactly where none of its kind and body was added before; of several objects exactly those are given out that are
//! new, each with all its children among what was given before it.
#![tactic(auto)]

mod fault;
mod giving;
mod making;
mod objects;
mod places;
mod seen;
mod slots;

pub use fault::MakeFault;
pub use giving::give_all;
pub use making::{make_object, whole_id};
pub use objects::Objects;
pub use seen::{Novelty, Seen};
