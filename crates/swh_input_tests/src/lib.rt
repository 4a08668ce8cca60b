//! Tests of folders and batches as inputs: listings, walks, directories that are made, and batches with their refs.
//! Stands on the crates that read folders and batches, and on folders and sources in memory.
//! Nothing stands above it.
#![tactic(auto)]

#[cfg(test)]
mod batch_faults;
#[cfg(test)]
mod batch_limits;
#[cfg(test)]
mod batch_world;
#[cfg(test)]
mod batches_of_git;
#[cfg(test)]
mod directories;
#[cfg(test)]
mod directory_lengths;
#[cfg(test)]
mod directory_making;
#[cfg(test)]
mod failing_reads;
#[cfg(test)]
mod folder;
#[cfg(test)]
mod folder_loads;
#[cfg(test)]
mod folder_names;
#[cfg(test)]
mod folder_plain;
#[cfg(test)]
mod folder_readings;
#[cfg(test)]
mod folder_walks;
#[cfg(test)]
mod kept_objects;
#[cfg(test)]
mod laid;
#[cfg(test)]
mod listings;
#[cfg(test)]
mod long_listings;
#[cfg(test)]
mod reach;
#[cfg(test)]
mod refs_faults;
#[cfg(test)]
mod refs_limits;
#[cfg(test)]
mod refs_of_git;
#[cfg(test)]
mod taken_lines;
#[cfg(test)]
mod wide_folders;
