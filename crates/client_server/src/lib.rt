//! The law that client and server agree: what a site serves is read as the site's reply.
//!
//! Promise: for a link of the scheme http, the response of `site_core::serve` to
//! `http_message::request_bytes` is read as the site's reply for the link, or as a 404 where it has
//! none; the definitions are in `specs/Agreement.antt`.
//! Not here: how either side is computed. This crate has laws alone, since each side stands without the other.
#![tactic(auto)]

mod laws;

pub use crate::laws::{
    a_link_of_a_site_can_be_asked, a_request_is_read_as_its_head, an_http_link_can_be_asked,
    what_is_served_is_read_as_the_reply,
};
