//! RDF terms, and the texts, bytes and lists that public records are made of.
//!
//! Promise: contracts see a text or bytes as the list of its bytes, a list as its items, a box as its
//! value, and a term as data; `==`, the order and each `copy` speak of these alone. The order of terms
//! is in `specs/Order.antt`. `specs/formers` tells the checker how a list and a box are laid, so that a
//! type that leads back to itself may hold them.
//! Not here: which texts are IRIs (`iri_core`), and how solutions are ordered (`expr_eval`).
//!
//! Want of memory is `Memory` everywhere; after it every argument that was lent is as before.
#![tactic(auto)]

mod boxed;
mod bytes;
mod memory;
mod seq;
mod term;
mod text;
mod triple;
mod write;

pub use crate::boxed::Boxed;
pub use crate::bytes::ByteBuf;
pub use crate::memory::Memory;
pub use crate::seq::Seq;
pub use crate::term::{Term, is_same_term, order_of_terms};
pub use crate::text::TextBuf;
pub use crate::triple::{Triple, is_same_triple};
pub use crate::write::{write_label, write_term};
