//! SWHIDs as texts: core identifiers and qualifiers, read into values and printed (SWHID v1.2, ISO/IEC 18670).
//! Stands on `swh_base` for names, on `percent_encoding` and `hex` for escapes and on `itoa` for numbers.
//! Callers may rely on: just the grammar is read, a text spells one value, a value has one printed text, and a refusal
//! names the longest front that goes on.
#![tactic(auto)]

mod fault;
mod front;
mod identifier;
mod laws;
mod number;
mod parsing;
mod printing;
mod qualifier;
mod swhid;
mod text;

pub use fault::SwhidFault;
pub use identifier::{core_text, parse_core};
pub use laws::{one_place, one_printed_text, one_reading, printed_is_read, read_is_value};
pub use parsing::parse;
pub use printing::print;
pub use swhid::Swhid;
