//! Tests of connections: what is replied to the bytes that come on a link.
//! Stands on `swh_serve` and links in memory.
//! Nothing stands above it.
#![tactic(auto)]

#[cfg(test)]
mod connections;
#[cfg(test)]
mod toy;
