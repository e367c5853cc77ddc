//! Direct calls of the libraries at the base: terms, values, expressions, references, links, ports
//! and rows. It has tests alone, since a library with tests of its own is proved twice.
//!
//! Each public call that can answer want of memory is made at least once with ample memory, and its
//! answer is compared with one from outside. What a contract says of all arguments is not tried
//! again here.
//! Not here: tests of the libraries that read texts (`calls_reading`).
#![tactic(auto)]

#[cfg(test)]
mod boxes;
#[cfg(test)]
mod expressions;
#[cfg(test)]
mod links;
#[cfg(test)]
mod ports;
#[cfg(test)]
mod references;
#[cfg(test)]
mod rows;
#[cfg(test)]
mod terms;
#[cfg(test)]
mod values;
#[cfg(test)]
mod wires;
