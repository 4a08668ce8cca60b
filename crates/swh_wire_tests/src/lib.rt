//! Tests of the wire: connections of real clients, requests and replies, and each path of the read API.
//! Stands on `swh_http`, `swh_replies`, `swh_api` and archives in memory.
//! Nothing stands above it.
#![tactic(auto)]

#[cfg(test)]
mod answered;
#[cfg(test)]
mod api_world;
#[cfg(test)]
mod artifacts;
#[cfg(test)]
mod asked;
#[cfg(test)]
mod clients;
#[cfg(test)]
mod cooked_replies;
#[cfg(test)]
mod known;
#[cfg(test)]
mod lists;
#[cfg(test)]
mod logs;
#[cfg(test)]
mod replies;
#[cfg(test)]
mod requests;
#[cfg(test)]
mod sessions;
#[cfg(test)]
mod values;
#[cfg(test)]
mod visit_replies;
#[cfg(test)]
mod wide_replies;
