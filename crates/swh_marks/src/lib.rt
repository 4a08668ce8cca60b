//! The marks by which a stream names its objects (git-fast-import(1), mark): those that are written, in their order,
//! from 1.
//! Stands on `swh_postorder`, which has where names stand in a list, mostly seen at once, and on `swh_closure`, which
//! has a lemma on their order.
//! Callers may rely on: of an order in which no name stands twice, the mark of a name that is written is one more than
//! the number of the written names that stand before it.
#![tactic(auto)]

mod marks;

pub use marks::Marks;
