//! Tests of public calls: look-ups over connections.
//!
//! Each public call of these libraries that can answer want of memory is made here with ample memory, and its answer
//! compared with what was served. They stand here since a library with tests is proved twice.
//! Not here: what the contracts say for every input.
#![tactic(auto)]

#[cfg(test)]
mod lanes;
