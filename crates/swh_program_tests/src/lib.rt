//! Tests of `run` over memory: each command, each printed line and status, each part failing in turn, limits at both sides.
//! Stands on the program's fixtures.
//! Nothing stands above it.
#![tactic(auto)]

#[cfg(test)]
mod ask_refusals;
#[cfg(test)]
mod ask_replies;
#[cfg(test)]
mod ask_runs;
#[cfg(test)]
mod asked;
#[cfg(test)]
mod cooks;
#[cfg(test)]
mod damages;
#[cfg(test)]
mod devices;
#[cfg(test)]
mod failing_loads;
#[cfg(test)]
mod folders;
#[cfg(test)]
mod lengths;
#[cfg(test)]
mod load_jobs;
#[cfg(test)]
mod load_kinds;
#[cfg(test)]
mod load_sums;
#[cfg(test)]
mod loads;
#[cfg(test)]
mod long_streams;
#[cfg(test)]
mod many;
#[cfg(test)]
mod refusals;
#[cfg(test)]
mod repeated;
#[cfg(test)]
mod stream_limits;
#[cfg(test)]
mod stream_parts;
#[cfg(test)]
mod streams;
#[cfg(test)]
mod uncarried;
#[cfg(test)]
mod worked_loads;
