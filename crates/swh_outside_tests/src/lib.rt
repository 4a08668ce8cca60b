//! Tests of the parts outside the program, those in memory and the real ones: disks, inputs, folders, yards, and how each
//! of their calls fails.
//! Stands on the parts in memory, on the real ones, and on `os` for what a real folder holds.
//! Nothing stands above it.
#![tactic(auto)]

#[cfg(test)]
mod depots;
#[cfg(test)]
mod disks;
#[cfg(test)]
mod folders;
#[cfg(test)]
mod images;
#[cfg(test)]
mod inputs;
#[cfg(test)]
mod memory_links;
#[cfg(test)]
mod others;
#[cfg(test)]
mod path_counts;
#[cfg(test)]
mod real_disks;
#[cfg(test)]
mod real_folders;
#[cfg(test)]
mod real_inputs;
#[cfg(test)]
mod real_links;
#[cfg(test)]
mod real_others;
#[cfg(test)]
mod real_yards;
#[cfg(test)]
mod short;
#[cfg(test)]
mod yards;
