//! Links: the web URLs that may be looked up, and what is heard for one.
//!
//! Promise: which text has a link, and what the link's parts are, is a function of the text alone,
//! by the `url` crate's definition of the URL Standard; so links of equal text are equal in all
//! parts. Which replies may hold a document is a function of status, coding and media type. The
//! definitions are in `specs/Links.antt`, `specs/Heard.antt` and `specs/Wanted.antt`.
//! Not here: which links are followed (`reach_criteria`), and how one is looked up (`web_port`).
//!
//! Want of memory is `Memory` everywhere; after it every argument that was lent is as before.
#![tactic(auto)]

mod head;
mod heard;
mod laws;
mod link;
mod reading;

pub use crate::head::wanted;
pub use crate::heard::{Heard, Reply};
pub use crate::laws::links_of_equal_text_are_equal;
pub use crate::link::{Link, Scheme, is_same_link};
pub use crate::reading::{join, link_of};
