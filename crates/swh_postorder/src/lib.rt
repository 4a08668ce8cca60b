//! The order in which a walk over a graph of names leaves them, depth first: each is entered once, and left after its
//! children. It takes no recursion, so that a path of any length is walked.
//! Stands on `swh_base` and `swh_closure`.
//! Callers may rely on: there is one order, or one name that is the first entered and not held; the order has each name
//! that is reached, once, and a child comes before its parent unless it leads back to it; of a name that is looked for
//! in a list by slots it is told to which place of it they lead, or that they lead to none.
#![tactic(auto)]

mod cycles;
mod fault;
mod laws;
mod places;
mod walk;
mod walking;

pub use cycles::first_on_cycle;
pub use fault::OrderFault;
pub use laws::{
    children_precede, missing_names_are_reached, one_missing, one_postorder, order_is_reached,
    order_or_missing,
};
pub use places::Places;
pub use walking::postorder;
