//! Objects: a body of its kind with its name and the names that it names.
//! Stands on `swh_base` and on the readers of the manifests (git objects; SWHID v1.2, core identifiers): `swh_dirfmt`,
//! `swh_revfmt` and `swh_snpfmt`.
//! Callers may rely on: an object's body is one of its kind, its children are those of its body, and its id is the
//! namer's.
#![tactic(auto)]

mod children;
mod fault;
mod object;

pub use fault::ObjectFault;
pub use object::Object;
