ghost use Rattle.std.specs.Prelude.{◌≡◌, length, bytes_eq, option_copied};
ghost use Rattle.std.specs.Map.{lookup};
ghost use Rattle.site_core.specs.Text.{SiteText, site_text};

use link_uri::Reply;
use rdf_terms::TextBuf;
use std::marker::Model;

/// A site: its link texts in strictly ascending order of their bytes, each with its reply.
#[derive(Debug, Drop)]
pub struct Site {
    pub(crate) entries: Vec<(TextBuf, Reply)>,
}

impl Model for Site {
    ghost use Rattle.std.specs.Prelude.{◌≡◌, ◌≤◌, List, length, true, None};
    ghost use Rattle.site_core.specs.Text.{Entry, is_site_from, site_text, site_limit};

    ghost Value = { List Entry };

    ghost view = { λ s. s.entries.items };

    ghost invariant = { λ s. (is_site_from None s.entries.items ≡ true) × (length (site_text s.entries.items) ≤ site_limit) };
}

impl Site {
    /// The entries in ascending order of their link texts.
    pub fn entries(&self) -> &[(TextBuf, Reply)]
        ensures items { result.now ≡ self.now }
        ensures site { SiteText self.now (site_text self.now) }
    {
        self.entries.as_slice()
    }

    /// The number of entries.
    pub fn len(&self) -> usize
        ensures { result ≡ length self.now }
    {
        self.entries.len()
    }

    /// The reply for a link text. It takes no memory, and time by the logarithm of the number of entries.
    pub fn get(&self, link: &str) -> Option<&Reply>
        ensures { option_copied result ≡ lookup (bytes_eq link.now) self.now }
    {
        match self.entries.binary_search_by(|e| e.0.as_str().cmp(link)) {
            Ok(place) => Some(&self.entries[place].1),
            Err(_) => None,
        }
    }
}
