ghost use Rattle.std.specs.Prelude.{◌≡◌, ◌++◌, IfOk, codes, decimal, Some};
ghost use Rattle.run_report.specs.Report as spec;

use rdf_terms::{ByteBuf, Memory};
use reachability::{Cause, Found, Outcome, Why};
use std::alloc::Global;

// A word and its number.
#[tactic(auto, unfolding(crate::specs::Report::numbered))]
pub(crate) fn numbered(alloc: Global, word: &[u8], number: u64) -> Result<ByteBuf, Memory>
    ensures { IfOk result (λ text. text ≡ spec.numbered word.now number) }
{
    let mut text = ByteBuf::from_slice(alloc, word)?;
    let digits = number.to_string(alloc)?;
    text.extend(digits.as_bytes())?;
    Ok(text)
}

fn why_text(alloc: Global, why: Why) -> Result<ByteBuf, Memory>
    ensures { IfOk result (λ text. text ≡ spec.why_text why) }
{
    match why {
        Why::Status(status) => numbered(alloc, b"status ", status as u64),
        Why::Media => ByteBuf::from_slice(alloc, b"type"),
        Why::Coding => ByteBuf::from_slice(alloc, b"coding"),
        Why::Length => ByteBuf::from_slice(alloc, b"length"),
        Why::Head => ByteBuf::from_slice(alloc, b"head"),
        Why::Location => ByteBuf::from_slice(alloc, b"location"),
        Why::Scheme => ByteBuf::from_slice(alloc, b"scheme"),
        Why::Syntax(at) => numbered(alloc, b"syntax ", at as u64),
        Why::Deep(at) => numbered(alloc, b"deep ", at as u64),
    }
}

fn cause_word(cause: Cause) -> &'static [u8]
    ensures { result.now ≡ spec.cause_text cause }
{
    match cause {
        Cause::Connect => b"connect",
        Cause::Broken => b"broken",
        Cause::Cut => b"cut",
        Cause::Silent => b"silent",
    }
}

fn unreachable_text(alloc: Global, cause: Cause, tries: u8) -> Result<ByteBuf, Memory>
    ensures { IfOk result (λ text. text ≡ spec.unreachable_text cause tries) }
{
    let mut text = ByteBuf::from_slice(alloc, b"unreachable ")?;
    text.extend(cause_word(cause))?;
    let number = numbered(alloc, b" ", tries as u64)?;
    text.extend(number.as_slice())?;
    Ok(text)
}

/// The cause of a failure, as it is written: None where nothing failed.
pub(crate) fn failure_text(alloc: Global, found: &Found) -> Result<Option<ByteBuf>, Memory>
    ensures { IfOk result (λ text. text ≡ spec.failure_text found.now) }
{
    match found {
        Found::Outcome(Outcome::Document(_)) => Ok(None),
        Found::Outcome(Outcome::Moved(_)) => Ok(None),
        Found::Outcome(Outcome::Refused(why)) => {
            let text = why_text(alloc, *why)?;
            Ok(Some(text))
        }
        Found::Unreachable { cause, tries } => {
            let text = unreachable_text(alloc, *cause, *tries)?;
            Ok(Some(text))
        }
    }
}
