ghost use Rattle.std.specs.Prelude.{◌≡◌, ◌≤◌, ◌∷◌, IfOk, OnOk};
ghost use Rattle.std.specs.List.Sorted.{IsPermutation, IsSorted};
ghost use Rattle.site_core.specs.Generated as spec;

use crate::documents::{document, vocabulary};
use crate::site::Site;
use link_uri::Reply;
use rdf_terms::{Memory, TextBuf};
use std::alloc::Global;

/// The site that two numbers stand for: `n` documents with links to one another, `step` apart, and
/// the one behind the names that they use. It takes time by the number of its bytes, and sorts
/// `n + 1` links.
pub fn make_site(alloc: Global, n: u64, step: u64) -> Result<Site, Memory>
    requires range { (1 ≤ n) × (n ≤ 2000) }
    ensures value { IfOk result (λ site. spec.IsGenerated n step site) }
{
    let mut entries = numbered_entries(alloc, n, step)?;
    sort_entries(&mut entries)?;
    Ok(Site { entries })
}

// The vocabulary, and the documents by their numbers.
#[tactic(auto, using(crate::proofs::GeneratedLinks::documents_more))]
fn numbered_entries(alloc: Global, n: u64, step: u64) -> Result<Vec<(TextBuf, Reply)>, Memory>
    requires { n ≤ 2000 }
    ensures { IfOk result (λ entries. entries.items ≡ spec.vocabulary ∷ spec.documents n step n) }
{
    let mut entries = Vec::new(alloc);
    entries.push(vocabulary(alloc)?)?;
    for i in 0..n {
        entries.push(document(alloc, n, step, i)?)?;
    }
    Ok(entries)
}

fn sort_entries(entries: &mut Vec<(TextBuf, Reply)>) -> Result<(), Memory>
    ensures same { IsPermutation entries.old.items entries.new.items }
    ensures sorted { OnOk result (IsSorted spec.link_cmp entries.new.items) }
{
    entries.sort_by(|a, b| a.0.cmp(&b.0))?;
    Ok(())
}
