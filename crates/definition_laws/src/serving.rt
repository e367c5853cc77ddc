//! What a site serves.
ghost use Rattle.std.specs.Prelude.{ℕ, List};
ghost use Rattle.site_core.specs.Text.{Entry};
ghost use Rattle.site_core.specs.Serving.{IsServed};

/// Each request has a response, whatever its bytes. It has no other (`site_core::a_request_has_one_response`).
pub fn each_request_has_a_response()
    ensures { (site : List Entry) (request : List ℕ) → (response : List ℕ) × IsServed site request response }
{}
