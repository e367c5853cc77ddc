//! The run over a generated site: its settings, and the site.
ghost use Rattle.std.specs.Prelude.{◌≡◌, ◌≤◌, [], ◌∷◌, IfOk, Some};
ghost use Rattle.link_uri.specs.Links.{AreLinks, IsLink};
ghost use Rattle.answer_core.specs.Task as spec;

use command_words::Settings;
use link_uri::{Link, link_of};
use rdf_terms::{Memory, Seq, TextBuf};
use reach_criteria::Criterion;
use std::alloc::Global;
use web_port::FetchSettings;

const QUERY: &str =
    "PREFIX v: <http://self.test/v#> SELECT DISTINCT ?m WHERE { ?a v:next ?b . ?b v:next ?c . ?c v:mark ?m . FILTER (?m < 10) } ORDER BY ?m";

const SEED: &str = "http://self.test/d0#it";

const LIMIT: u64 = 100_000;

const LANES: u16 = 8;

const TRIES: u8 = 3;

const BODY: u64 = 1_048_576;

fn seed(alloc: Global) -> Result<Link, Memory>
    ensures value { IfOk result (λ link. link ≡ spec.generated_link) }
    ensures valid { IfOk result IsLink }
{
    match link_of(alloc, SEED)? {
        Some(link) => Ok(link),
        None => unreachable!(),
    }
}

fn seeds(alloc: Global) -> Result<Seq<Link>, Memory>
    ensures value { IfOk result (λ links. links ≡ spec.generated_link ∷ []) }
    ensures valid_links { IfOk result AreLinks }
{
    let mut links = Seq::new(alloc);
    links.push(seed(alloc)?)?;
    Ok(links)
}

/// The settings of a run over a generated site.
pub(crate) fn settings_of(alloc: Global, workers: u16) -> Result<Settings, Memory>
    ensures value { IfOk result (λ s. s ≡ spec.generated_settings workers) }
    ensures valid_links { IfOk result (λ s. AreLinks s.seeds) }
{
    let query = TextBuf::from_str(alloc, QUERY)?;
    let seeds = seeds(alloc)?;
    Ok(Settings {
        query,
        seeds,
        criterion: Criterion::Match,
        limit: LIMIT,
        workers,
        fetch: FetchSettings {
            lanes: LANES,
            tries: TRIES,
            body: BODY,
            via: None,
        },
    })
}
