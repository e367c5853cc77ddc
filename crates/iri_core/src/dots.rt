ghost use Rattle.std.specs.Prelude.{◌≡◌, ◌++◌, OnOk, IfOk};
ghost use Rattle.std.specs.String.{string_bytes};
ghost use Rattle.std.specs.List.{join_with_byte};
ghost use Rattle.iri_core.specs.Reference.{slash};
ghost use Rattle.iri_core.specs.Dots.{is_dot, is_dot_dot, is_dots, segments, without_leading, climbed, kept_after, kept_at_end, kept_of, without_dots};
ghost use Rattle.iri_core.specs.Kept.{texts, latest_first, slash_before};

use rdf_terms::Memory;
use std::alloc::Global;

fn is_dot(segment: &str) -> bool
    ensures { result ≡ is_dot segment.now }
{
    segment == "."
}

fn is_dot_dot(segment: &str) -> bool
    ensures { result ≡ is_dot_dot segment.now }
{
    segment == ".."
}

fn is_dots(segment: &str) -> bool
    ensures { result ≡ is_dots segment.now }
{
    is_dot(segment) || is_dot_dot(segment)
}

// The path behind its leading dot segments.
fn behind_leading_dots(path: &str) -> &str
    ensures { segments result.now ≡ without_leading (segments path.now) }
{
    let mut rest = path;
    while let Some((segment, after)) = rest.split_once('/') {
        if !is_dots(segment) {
            return rest;
        }
        rest = after;
    }
    if is_dots(rest) { "" } else { rest }
}

// Takes the latest segment away; the first leaves an empty one.
fn climb<'a>(kept: &mut Vec<&'a str>) -> Result<(), Memory>
    ensures { OnOk result (latest_first kept.new.items ≡ climbed (latest_first kept.old.items)) }
{
    kept.pop();
    if kept.is_empty() {
        kept.push("")?;
    }
    Ok(())
}

// Goes on by a segment that a slash follows.
fn keep<'a>(kept: &mut Vec<&'a str>, segment: &'a str) -> Result<(), Memory>
    ensures { OnOk result
        (latest_first kept.new.items ≡ kept_after (latest_first kept.old.items) segment.now) }
{
    if is_dot_dot(segment) {
        climb(kept)?;
    } else if !is_dot(segment) {
        kept.push(segment)?;
    }
    Ok(())
}

fn keep_last<'a>(kept: &mut Vec<&'a str>, segment: &'a str) -> Result<(), Memory>
    ensures { OnOk result
        (latest_first kept.new.items ≡ kept_at_end (latest_first kept.old.items) segment.now) }
{
    keep(kept, segment)?;
    if is_dots(segment) {
        kept.push("")?;
    }
    Ok(())
}

// The segments that are kept of a path that doesn't begin with a dot segment.
fn kept_segments<'a>(alloc: Global, path: &'a str) -> Result<Vec<&'a str>, Memory>
    ensures { IfOk result (λ kept. latest_first kept.items ≡ kept_of (segments path.now)) }
{
    let mut kept = Vec::new(alloc);
    let Some((first, mut rest)) = path.split_once('/') else {
        kept.push(path)?;
        return Ok(kept);
    };
    kept.push(first)?;
    while let Some((segment, after)) = rest.split_once('/') {
        keep(&mut kept, segment)?;
        rest = after;
    }
    keep_last(&mut kept, rest)?;
    Ok(kept)
}

// The slash in front of every segment but the first.
fn push_slash(out: &mut String, i: usize) -> Result<(), Memory>
    ensures { OnOk result (string_bytes out.new ≡ string_bytes out.old ++ slash_before i) }
{
    if i > 0 {
        out.push_str("/")?;
    }
    Ok(())
}

fn push_joined(out: &mut String, segments: &[&str]) -> Result<(), Memory>
    ensures { OnOk result
        (string_bytes out.new ≡ string_bytes out.old ++ join_with_byte slash (texts segments.now)) }
{
    for (i, segment) in segments.iter().enumerate() {
        push_slash(out, i)?;
        out.push_str(segment)?;
    }
    Ok(())
}

/// Appends the path without its dot segments.
#[tactic(auto, unfolding(crate::specs::Dots::without_dots))]
pub(crate) fn push_without_dots(alloc: Global, out: &mut String, path: &str) -> Result<(), Memory>
    ensures { OnOk result (string_bytes out.new ≡ string_bytes out.old ++ without_dots path.now) }
{
    let kept = kept_segments(alloc, behind_leading_dots(path))?;
    push_joined(out, &kept)
}
