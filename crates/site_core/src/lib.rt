//! Site files: a finite web in one text, with what is answered for each link, and how a site serves requests.
//!
//! Promise: a site is its ascending list of link texts with their replies. `write_site` gives the one
//! text of a site, and `read_site` gives the site of a site text, and of other bytes the place of
//! the first fault. The text is in `specs/Text.antt`, the places are in `specs/Places.antt`. `serve` gives
//! the one response to the bytes of a request (`specs/Serving.antt`). `make_site` gives the one site that
//! two numbers stand for (`specs/Generated.antt`).
//! Not here: how a site is looked up as a web (`web_port`), and how a client reads what is served (`client_server`).
//!
//! Want of memory is `Memory` everywhere; after it every argument that was lent is as before.
#![tactic(auto)]

mod documents;
mod expected;
mod fault;
mod fields;
mod generated;
mod laws;
mod link_part;
mod reading;
mod request;
mod response;
mod serving;
mod site;
mod steps;
mod viable;
mod writing;

pub use crate::fault::SiteFault;
pub use crate::generated::make_site;
pub use crate::laws::{
    a_fault_has_one_place, a_generated_site_is_one, a_request_has_one_response,
    a_site_text_has_no_fault, a_text_has_one_site, each_file_is_a_site_or_has_a_fault,
};
pub use crate::reading::read_site;
pub use crate::serving::serve;
pub use crate::site::Site;
pub use crate::writing::write_site;
