//! Reading by a grammar that says at each token how to go on.
//!
//! A grammar is data (`specs/Engine.antt`): for each of its parts a program that gives a value, says
//! that the next token does not fit, takes a token, looks at one, or goes through a part. What such a
//! grammar reads is a relation, `Reads`, and a function, `parse`.
//!
//! Promise (`proofs/Reading.antt`): a grammar gives each list of tokens one answer, which is the
//! function's, where each part that is entered before a token is taken has a smaller rank; and then
//! a part reads what its program reads (`opened`). No contract can range over grammars, so a crate
//! with a grammar states these laws of its own.
//! Not here: any grammar, and code that reads by one.
#![tactic(auto)]
