//! Tests of loads over memory: inputs of each kind, the steps of a load beside another loader, each device call that fails in
//! turn, jobs one after another, and the check of what was loaded.
//! Stands on the loader, the pool, the check, the fakes and the fixtures.
//! Nothing stands above it.
#![tactic(auto)]

#[cfg(test)]
mod between;
#[cfg(test)]
mod changed_bodies;
#[cfg(test)]
mod checks;
#[cfg(test)]
mod crashes;
#[cfg(test)]
mod desk;
#[cfg(test)]
mod faults;
#[cfg(test)]
mod faulty;
#[cfg(test)]
mod held_bodies;
#[cfg(test)]
mod job_gates;
#[cfg(test)]
mod job_rows;
#[cfg(test)]
mod job_world;
#[cfg(test)]
mod lent_bodies;
#[cfg(test)]
mod lines;
#[cfg(test)]
mod loaded_inputs;
#[cfg(test)]
mod openings;
#[cfg(test)]
mod read_batches;
#[cfg(test)]
mod read_streams;
#[cfg(test)]
mod readings;
#[cfg(test)]
mod walks;
#[cfg(test)]
mod world;
