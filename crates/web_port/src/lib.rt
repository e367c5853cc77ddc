//! The port to a web: fetchers that look up links, several at a time, and what makes them.
//!
//! Promise: a fetcher settles each link that was started with what the web answers, or with the
//! cause of its last failed try once it failed as often as the settings say; each failed try is a
//! fault, and each loss is counted by its cause. What a call does is in `specs/Port.antt`; the
//! fetchers in memory meet it, and take lanes, wait and fail exactly as their lists say
//! (`specs/MemoryWeb.antt`).
//! Not here: fetching over sockets (`fetch_poll`), and what an answer means (`doc_reader`).
//!
//! Want of memory is `Memory` everywhere; after it every argument that was lent is as before, but
//! for a fetcher that was polled: the same links are open, and more of their tries may have failed,
//! with as many more faults. A poll of this crate's own fetchers changes nothing then; `next_landed`
//! makes several polls.
#![tactic(auto)]

mod fetcher;
mod flight;
mod lanes;
mod links;
mod losses;
mod memory_links;
mod memory_web;
mod polling;
mod settings;
mod site_links;
mod trying;

pub use crate::fetcher::{Fetcher, Got, Polled};
pub use crate::flight::Flight;
pub use crate::links::{Links, MakeFault};
pub use crate::losses::Losses;
pub use crate::memory_links::MemoryLinks;
pub use crate::memory_web::MemoryWeb;
pub use crate::polling::next_landed;
pub use crate::settings::{FetchSettings, Via};
pub use crate::site_links::{SiteFetcher, SiteLinks};
pub use reachability::{Cause, Web};
