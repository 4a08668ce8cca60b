//! Tests of streams: their lines and commands, folders and trees, what they mean, and their loading part by part.
//! Stands on the crates that read streams, and on sources in memory.
//! Nothing stands above it.
#![tactic(auto)]

#[cfg(test)]
mod changes;
#[cfg(test)]
mod commits;
#[cfg(test)]
mod data;
#[cfg(test)]
mod first_steps;
#[cfg(test)]
mod folders;
#[cfg(test)]
mod ids_of_git;
#[cfg(test)]
mod limits;
#[cfg(test)]
mod lines;
#[cfg(test)]
mod loaded_streams;
#[cfg(test)]
mod many_entries;
#[cfg(test)]
mod meaning;
#[cfg(test)]
mod paths;
#[cfg(test)]
mod read_commands;
#[cfg(test)]
mod sharing;
#[cfg(test)]
mod short_lists;
#[cfg(test)]
mod stream_faults;
#[cfg(test)]
mod stream_parts;
#[cfg(test)]
mod streams_by_hand;
#[cfg(test)]
mod streams_of_git;
#[cfg(test)]
mod tree_changes;
#[cfg(test)]
mod tree_names;
#[cfg(test)]
mod tree_plain;
#[cfg(test)]
mod words;
