ghost use Rattle.std.specs.Prelude.{◌≡◌, ◌<◌, ◌≤◌, drop, length, IfOk, OnOk, OnErr};
ghost use Rattle.web_port.specs.Lanes.{AllBelow};
ghost use Rattle.web_port.specs.MemoryWeb as spec;
ghost use Rattle.reachability.specs.Web.{heard_at};

use crate::lanes::Lanes;
use crate::{Flight, Polled};
use link_uri::Heard;
use rdf_terms::{Memory, TextBuf};
use reachability::{Cause, Web};

/// The turn at a place of the list; behind its end it is the first lane's.
pub fn turn_at(turns: &[u16], at: usize) -> u16
    requires { at ≤ length turns.now }
    ensures { result ≡ spec.first_turn (drop at turns.now) }
{
    if at < turns.len() { turns[at] } else { 0 }
}

/// The place behind it.
pub fn place_behind(turns: &[u16], at: usize) -> usize
    requires { at ≤ length turns.now }
    ensures later { drop result turns.now ≡ spec.later_turns (drop at turns.now) }
    ensures within { result ≤ length turns.now }
{
    if at < turns.len() { at + 1 } else { at }
}

/// What the web answers for the link of a text.
fn heard_for<'a>(web: &'a Web, text: &TextBuf) -> &'a Heard
    ensures { result.now ≡ heard_at web.now text.now }
{
    for entry in web.entries.as_slice() {
        if entry.0 == *text {
            return &entry.1;
        }
    }
    &web.otherwise
}

fn times_for(fails: &[(TextBuf, u8)], text: &TextBuf) -> u8
    ensures { result ≡ spec.times_in fails.now text.now }
{
    for entry in fails {
        if entry.0 == *text {
            return entry.1;
        }
    }
    0
}

fn is_never(heard: &Heard) -> bool
    ensures { result ≡ spec.is_never heard.now }
{
    match heard {
        Heard::Never => true,
        Heard::Reply(_) | Heard::Malformed | Heard::TooLong => false,
    }
}

// Why the next try fails, if it does.
fn why_fails(fails: &[(TextBuf, u8)], heard: &Heard, flight: &Flight) -> Option<Cause>
    ensures { result ≡ spec.failing fails.now heard.now flight.now }
{
    if flight.failed < times_for(fails, &flight.link) {
        return Some(Cause::Connect);
    }
    if is_never(heard) {
        Some(Cause::Cut)
    } else {
        None
    }
}

/// Tries the open link at a place.
pub fn try_lane(
    flying: &mut Lanes,
    place: usize,
    web: &Web,
    fails: &[(TextBuf, u8)],
    tries: u8,
) -> Result<Polled, Memory>
    requires place { place < length flying.old.flights }
    requires below { AllBelow tries flying.old.flights }
    ensures polled { IfOk result (λ polled.
        polled ≡ spec.polled_lane web.now tries fails.now flying.old.flights place) }
    ensures state { OnOk result
        (flying.new ≡ spec.after_lane web.now tries fails.now flying.old place) }
    ensures err { OnErr result (flying.new ≡ flying.old) }
{
    let flight = &flying.flights()[place];
    let heard = heard_for(web, &flight.link);
    match why_fails(fails, heard, flight) {
        Some(cause) => flying.fail(place, cause, tries),
        None => {
            let heard = heard.copy()?;
            Ok(flying.answer(place, heard))
        }
    }
}

/// Polls at a turn.
pub fn try_turn(
    flying: &mut Lanes,
    turn: u16,
    web: &Web,
    fails: &[(TextBuf, u8)],
    tries: u8,
) -> Result<Polled, Memory>
    requires { AllBelow tries flying.old.flights }
    ensures polled { IfOk result (λ polled.
        polled ≡ spec.polled_turn web.now tries fails.now flying.old.flights turn) }
    ensures state { OnOk result
        (flying.new ≡ spec.after_turn web.now tries fails.now flying.old flying.old.flights turn) }
    ensures err { OnErr result (flying.new ≡ flying.old) }
{
    let count = flying.flights().len();
    if count == 0 {
        return Ok(Polled::Idle);
    }
    if turn == u16::MAX {
        return Ok(Polled::Pending);
    }
    try_lane(flying, turn as usize % count, web, fails, tries)
}
