//! Tests of the desk over a keeper: reads, posted streams, disks that fail, and a connection.
//! Stands on `swh_desk`, `swh_keeper` and archives in memory.
//! Nothing stands above it.
#![tactic(auto)]

#[cfg(test)]
mod connections;
#[cfg(test)]
mod faults;
#[cfg(test)]
mod links;
#[cfg(test)]
mod loads;
#[cfg(test)]
mod world;
