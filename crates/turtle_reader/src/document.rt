//! Statements, and the whole document.

ghost use Rattle.std.specs.Prelude.{◌≡◌, ◌<◌, [], length, IfOk};
ghost use Rattle.turtle_reader.specs.Grammar.{Gives, reads, Statement, TurtleDoc};

use crate::kind::{Kind, Token};
use crate::next::{first, is_at_end, misfit, need_dot, need_iri_ref, need_namespace};
use crate::setting::Setting;
use crate::token_fault::ResolveError;
use crate::triples::triples;
use rdf_terms::Triple;
use std::alloc::Global;

/// One statement; its triples are added to `out`. What a declaration declares is in the tokens that
/// follow.
#[tactic(auto, using(crate::proofs::Whole::part_is))]
fn statement<'t>(
    setting: &Setting,
    out: &mut Vec<Triple>,
    tokens: &'t [Token],
) -> Result<&'t [Token], ResolveError>
    ensures value { Gives (λ x. (out.new.items, x.now)) result (reads setting.now.doc setting.now.stop (Statement out.old.items) tokens.now) }
    ensures fewer { IfOk result (λ x. length x.now < length tokens.now) }
{
    let stop = setting.stop;
    let Some((token, rest)) = first(tokens) else {
        return Err(misfit(stop, tokens));
    };
    match &token.kind {
        Kind::AtPrefix => {
            let rest = need_namespace(stop, rest)?;
            let rest = need_iri_ref(stop, rest)?;
            need_dot(stop, rest)
        }
        Kind::AtBase => {
            let rest = need_iri_ref(stop, rest)?;
            need_dot(stop, rest)
        }
        Kind::Prefix => {
            let rest = need_namespace(stop, rest)?;
            need_iri_ref(stop, rest)
        }
        Kind::Base => need_iri_ref(stop, rest),
        _ => {
            let rest = triples(setting, out, tokens)?;
            need_dot(stop, rest)
        }
    }
}

/// The triples of a document's tokens.
#[tactic(auto, using(crate::proofs::Whole::part_is))]
pub fn document<'t>(
    alloc: Global,
    setting: &Setting,
    tokens: &'t [Token],
) -> Result<(Vec<Triple>, &'t [Token]), ResolveError>
    ensures { Gives (λ x. (x.0.items, x.1.now)) result (reads setting.now.doc setting.now.stop (TurtleDoc []) tokens.now) }
{
    let mut out = Vec::new(alloc);
    let mut rest = tokens;
    while !is_at_end(rest) {
        rest = statement(setting, &mut out, rest)?;
    }
    Ok((out, rest))
}
