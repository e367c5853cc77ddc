//! Tests of public calls: boxes and lists, the queue of links, criteria, webs, sites, what they serve, fetchers, reports,
//! words, and the top call.
//!
//! Each public call of these libraries that can answer want of memory is made here with ample memory,
//! and its answer compared with what `docs/FORMATS.md` and the standards say. They stand here since a
//! library with tests is proved twice.
//! Not here: what the contracts say for every input, and the calls of a traversal, which `alone_rows` makes.
#![tactic(auto)]

#[cfg(test)]
mod answers;
#[cfg(test)]
mod commands;
#[cfg(test)]
mod criteria;
#[cfg(test)]
mod fetchers;
#[cfg(test)]
mod reports;
#[cfg(test)]
mod serving;
#[cfg(test)]
mod sites;
#[cfg(test)]
mod tables;
#[cfg(test)]
mod webs;
#[cfg(test)]
mod words;
