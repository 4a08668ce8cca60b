//! Tests of names, texts and manifests: SWHIDs, job files, words, made streams; and the bodies of directories, revisions,
//! releases and snapshots, with their objects.
//! Stands on the crates of these texts alone.
//! Nothing stands above it.
#![tactic(auto)]

#[cfg(test)]
mod body_texts;
#[cfg(test)]
mod body_values;
#[cfg(test)]
mod directories;
#[cfg(test)]
mod jobs;
#[cfg(test)]
mod made_streams;
#[cfg(test)]
mod objects;
#[cfg(test)]
mod releases;
#[cfg(test)]
mod revisions;
#[cfg(test)]
mod snapshots;
#[cfg(test)]
mod swhids;
#[cfg(test)]
mod words;
#[cfg(test)]
mod worked_bodies;
