//! Heads of replies.
ghost use Rattle.std.specs.Prelude.{◌≡◌, ℕ, List, false};
ghost use Rattle.link_uri.specs.declared.link.Link.{Link};
ghost use Rattle.link_uri.specs.declared.heard.Reply.{Reply};
ghost use Rattle.link_uri.specs.Wanted.{is_wanted};
ghost use Rattle.doc_reader.specs.Outcome.{reply_outcome};

/// Where a head is not wanted the body changes no outcome, so that it need not be read.
pub fn only_a_wanted_body_counts()
    ensures { (link : Link) (reply : Reply) (body : List ℕ) (limit : ℕ) → is_wanted reply ≡ false
        → reply_outcome link (record reply { body = body }) limit ≡ reply_outcome link reply limit }
{}
