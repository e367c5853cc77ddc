//! Tests of public calls: a growing graph, joins that grow, the algebra, the parts of queries, whole queries, the text
//! of results and its writing.
//!
//! Each public call of these libraries that can answer want of memory is made here with ample memory,
//! and its answer compared with what the standards say. They stand here since a library with tests is
//! proved twice.
//! Not here: what the contracts say for every input, and runs of traversals (`calls_run`, `alone_rows`).
#![tactic(auto)]

#[cfg(test)]
mod evaluations;
#[cfg(test)]
mod graphs;
#[cfg(test)]
mod joins;
#[cfg(test)]
mod queries;
#[cfg(test)]
mod results;
#[cfg(test)]
mod translations;
#[cfg(test)]
mod writers;
