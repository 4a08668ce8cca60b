//! Tests of whole runs over the system, each in a folder of its own.
//! Stands on the program's start, the parts over the system and the fixtures.
//! Nothing stands above it.
#![tactic(auto)]

#[cfg(test)]
mod cooks;
#[cfg(test)]
mod named;
#[cfg(test)]
mod refusals;
#[cfg(test)]
mod runs;
#[cfg(test)]
mod starts;
