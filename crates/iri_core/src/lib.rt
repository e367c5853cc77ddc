//! References to resources: their parts, which texts are references, and how one is resolved
//! against a base (RFC 3986, with the characters of RFC 3987).
//!
//! Promise: `split`, `check` and `resolve` equal their definitions. The parts are in
//! `specs/Reference.antt`, the refusals in `specs/Refusal.antt`, the removal of dot segments in
//! `specs/Dots.antt` (the RFC's own rules in `specs/DotRules.antt`), the resolved text in
//! `specs/Resolution.antt`, and what a relative reference and a prefixed name of a document or of a query stand
//! for in `specs/Iris.antt`. Not here: which references have a link (`link_uri`).
//!
//! Each call takes time linear in its texts. Want of memory is `Memory`, and comes after refusals.
#![tactic(auto)]

mod dots;
mod iris;
mod laws;
mod parts;
mod refusal;
mod resolution;

pub use crate::iris::{prefixed_iri, resolved_iri};
pub use crate::laws::dots_go_by_the_rules;
pub use crate::parts::{Parts, Span, piece, split};
pub use crate::refusal::{NotAnIri, check};
pub use crate::resolution::{IriFault, resolve};
