//! Laws of the definitions. Each function's contract is one law, and its body is empty.
ghost use Rattle.std.specs.Prelude.{◌≡◌, ◌≤◌, ◌<◌, ◌⊎◌, ℕ, List, length};
ghost use Rattle.site_core.specs.Generated.{IsGenerated};
ghost use Rattle.site_core.specs.Places.{SiteBad};
ghost use Rattle.site_core.specs.Serving.{IsServed};
ghost use Rattle.site_core.specs.Text.{Entry, SiteText, site_limit};

/// A text is that of one site: reading what was written gives the site again.
pub fn a_text_has_one_site()
    ensures { (a b : List Entry) (bytes : List ℕ) → SiteText a bytes → SiteText b bytes → a ≡ b }
{}

/// Bytes with a fault are no site text.
pub fn a_site_text_has_no_fault()
    ensures { (entries : List Entry) (bytes : List ℕ) (at : ℕ)
        → SiteText entries bytes → SiteBad bytes at → ⊥ }
{}

/// There is one first fault.
pub fn a_fault_has_one_place()
    ensures { (bytes : List ℕ) (a b : ℕ) → SiteBad bytes a → SiteBad bytes b → a ≡ b }
{}

/// Bytes that are no more than may be are a site text or have a first fault, and longer ones are not
/// without one.
pub fn each_file_is_a_site_or_has_a_fault()
    ensures within { (bytes : List ℕ) → length bytes ≤ site_limit
        → ((entries : List Entry) × SiteText entries bytes) ⊎ ((at : ℕ) × SiteBad bytes at) }
    ensures beyond { (bytes : List ℕ) → site_limit < length bytes → ((at : ℕ) → SiteBad bytes at → ⊥) → ⊥ }
{}

/// A request has one response.
pub fn a_request_has_one_response()
    ensures { (site : List Entry) (request a b : List ℕ) → IsServed site request a → IsServed site request b → a ≡ b }
{}

/// Two numbers stand for one site.
pub fn a_generated_site_is_one()
    ensures { (n step : ℕ) (a b : List Entry) → IsGenerated n step a → IsGenerated n step b → a ≡ b }
{}
