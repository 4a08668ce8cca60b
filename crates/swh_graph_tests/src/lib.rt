//! Tests of reading a graph, and of what cooking takes from it: paths, orders, marks, sums and what a form carries.
//! Stands on `swh_graph`, the lower crates of cooking, and archives in memory.
//! Nothing stands above it.
#![tactic(auto)]

#[cfg(test)]
mod carried_orders;
#[cfg(test)]
mod cooked_texts;
#[cfg(test)]
mod deep_graphs;
#[cfg(test)]
mod deep_paths;
#[cfg(test)]
mod graph_calls;
#[cfg(test)]
mod name_orders;
#[cfg(test)]
mod paths;
#[cfg(test)]
mod stream_texts;
#[cfg(test)]
mod wide_graphs;
