//! Laws of the definitions. Each function's contract is one law.
ghost use Rattle.std.specs.Prelude.{◌≡◌, ◌≤◌, ◌++◌, ℕ, List, [], length, Bool, Some, bytes_eq};
ghost use Rattle.std.specs.Map.{lookup};
ghost use Rattle.httparse.specs.Grammar.{ReadsRequest};
ghost use Rattle.link_uri.specs.declared.link.Link.{Link};
ghost use Rattle.link_uri.specs.declared.link.Scheme.TheVariants.{Http};
ghost use Rattle.link_uri.specs.declared.heard.Reply.{Reply};
ghost use Rattle.link_uri.specs.Links.{IsLink};
ghost use Rattle.http_message.specs.Body.{decided};
ghost use Rattle.http_message.specs.Reading.{Reads, head_limit};
ghost use Rattle.http_message.specs.Request.{request_text};
ghost use Rattle.site_core.specs.Serving.{IsServed, reply_head};
ghost use Rattle.site_core.specs.Text.{Entry, SiteText};
ghost use Rattle.client_server.specs.Agreement as spec;

use http_message::a_printed_head_is_read_as_it_says;

/// The request for a link is a whole request head with the parts that it spells.
pub fn a_request_is_read_as_its_head()
    ensures { (link : Link) (via : Bool) → spec.IsAskable link → ReadsRequest (request_text link via) (spec.request_head link via) [] }
{}

/// Each link of the scheme http is one that can be asked for: its text, as each serialized URL, is visible
/// ASCII (URL Standard, section 4.5).
pub fn an_http_link_can_be_asked()
    ensures { (link : Link) → IsLink link → link.scheme ≡ Http → spec.IsAskable link }
{}

/// A link that a site has an entry for is one that it can be asked for.
pub fn a_link_of_a_site_can_be_asked()
    ensures { (site : List Entry) (text : List ℕ) (link : Link) (reply : Reply) → SiteText site text → IsLink link
        → lookup (bytes_eq link.text) site ≡ Some reply → spec.IsAskable link }
{}

/// What a site serves for the request for a link is read as its reply for the link, or as a 404,
/// whatever follows; a wanted body past the limit is too long, and a reply that isn't wanted is read without its body.
/// Its head has to fit the bytes in which a head has to end.
pub fn what_is_served_is_read_as_the_reply()
    ensures { (site : List Entry) (text : List ℕ) (link : Link) (via : Bool) (response more : List ℕ) (limit : ℕ)
        → SiteText site text → spec.IsAskable link → IsServed site (request_text link via) response
        → length (reply_head (spec.reply_for site link)) ≤ head_limit
        → Reads limit (response ++ more) (decided (spec.heard_of limit (spec.reply_for site link))) }
{
    a_printed_head_is_read_as_it_says();
}
