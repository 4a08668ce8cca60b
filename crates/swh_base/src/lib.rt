//! What the other crates share: names of artifacts by their bytes, the public grammars of their bodies, the texts and
//! limits that several crates read and count against, bytes cut at the first of a byte or behind a word, graphs of
//! names, the kinds and statuses of visits, requests and replies, and lists that contracts see as lists.
//! Stands on `sha1`, `hex`, `itoa` and `percent_encoding`.
//! Callers may rely on: an id is the namer's value of kind and body; a body names one list of children; what is closed
//! in a graph stays closed as the graph grows; the pieces of bytes joined are the bytes, and there are none exactly
//! where the byte or the word is not there.
#![tactic(auto)]

mod bytes;
mod entry;
mod escaping;
mod graph;
mod items;
mod kind;
mod laws;
mod limits;
mod memory;
mod name;
mod namer;
mod number;
mod pieces;
mod request;
mod shared;
mod text;
mod url;
mod visit;

pub use bytes::Bytes;
pub use entry::{Entry, entry_is_sent};
pub use escaping::escape;
pub use graph::Graph;
pub use items::Items;
pub use kind::Kind;
pub use laws::{
    certificates_show_closed, growth_keeps_certificates, growth_keeps_closed, one_list_of_children,
    one_listing,
};
pub use limits::{
    BODY_LIMIT, BYTES_LIMIT, FILE_LIMIT, LINE_LIMIT, OBJECTS_LIMIT, PATH_LIMIT, REF_LIMIT,
    RUN_LIMIT, TAG_LIMIT, URL_LIMIT,
};
pub use memory::Memory;
pub use name::{Name, is_lower_hex_digit};
pub use namer::{ByteNamer, Namer, Sha1Namer};
pub use number::number_of;
pub use pieces::{behind, split_at_byte};
pub use request::{Reply, Request};
pub use shared::Shared;
pub use text::{are_digits, is_digit, is_person, is_ref};
pub use url::{Url, UrlFault, is_url};
pub use visit::{Status, VisitKind, Which};
