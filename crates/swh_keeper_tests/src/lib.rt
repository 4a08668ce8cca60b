//! Tests of the archive, from its model to its keeper: histories, segments, recovery, replays, stores, visits, plans and
//! openings.
//! Stands on the model, the format, the replay, the keeper and the fakes.
//! Nothing stands above it.
#![tactic(auto)]

#[cfg(test)]
mod closure_walks;
#[cfg(test)]
mod files;
#[cfg(test)]
mod format;
#[cfg(test)]
mod graphs;
#[cfg(test)]
mod harms;
#[cfg(test)]
mod histories;
#[cfg(test)]
mod model_limits;
#[cfg(test)]
mod model_told;
#[cfg(test)]
mod openings;
#[cfg(test)]
mod plans;
#[cfg(test)]
mod recovered;
#[cfg(test)]
mod replayed;
#[cfg(test)]
mod replays;
#[cfg(test)]
mod rows;
#[cfg(test)]
mod segment_events;
#[cfg(test)]
mod segment_making;
#[cfg(test)]
mod short;
#[cfg(test)]
mod shown;
#[cfg(test)]
mod stores;
#[cfg(test)]
mod told;
#[cfg(test)]
mod unread;
#[cfg(test)]
mod visits;
#[cfg(test)]
mod wished;
