//! Direct calls of the libraries that read texts: the texts of tokens, the two lexers, what their tokens stand for,
//! the readers of documents, and requests and responses. It has tests alone, since a library with tests of its own is proved
//! twice.
//!
//! Each public call that can answer want of memory is made at least once with ample memory, and its
//! answer is compared with one from outside. What a contract says of all arguments is not tried
//! again here.
//! Not here: tests of terms and links (`calls_base`).
#![tactic(auto)]

#[cfg(test)]
mod documents;
#[cfg(test)]
mod messages;
#[cfg(test)]
mod query_tokens;
#[cfg(test)]
mod resolved_queries;
#[cfg(test)]
mod resolved_turtle;
#[cfg(test)]
mod texts;
#[cfg(test)]
mod turtle;
#[cfg(test)]
mod turtle_tokens;
