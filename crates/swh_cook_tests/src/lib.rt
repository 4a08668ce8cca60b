//! Tests of cooking: a name into a stream, and into a folder or a file; and their refusals.
//! Stands on `swh_fastcook`, `swh_dircook`, archives and yards in memory.
//! Nothing stands above it.
#![tactic(auto)]

#[cfg(test)]
mod cooked_cycles;
#[cfg(test)]
mod cooked_streams;
#[cfg(test)]
mod cycles;
#[cfg(test)]
mod folder_world;
#[cfg(test)]
mod folders;
#[cfg(test)]
mod large_folders;
#[cfg(test)]
mod listings;
#[cfg(test)]
mod loading;
#[cfg(test)]
mod objects;
#[cfg(test)]
mod refused_folders;
#[cfg(test)]
mod refused_streams;
#[cfg(test)]
mod stream_lengths;
#[cfg(test)]
mod stream_limits;
#[cfg(test)]
mod stream_world;
#[cfg(test)]
mod yards;
