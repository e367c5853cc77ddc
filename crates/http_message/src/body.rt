ghost use Rattle.std.specs.Prelude.{◌≡◌, ◌<◌, ◌≤◌, ℕ, List, [], length, take, min, IfOk, IfSome, IfNone, OnOk, OnErr, true, false, Option, Some};
ghost use Rattle.link_uri.specs.declared.heard.Heard.TheVariants as heard;
ghost use Rattle.http_message.specs.Body.{message_from, decided, undecided};
ghost use Rattle.http_message.specs.State.{Grows, Steps, Continues, IsOpen, progress_from, is_decided};
ghost use Rattle.http_message.specs.Ended.{heard_at_end, IsBodyAfterEnd};

use crate::chunk_line::ChunkLine;
use crate::facts::Facts;
use crate::lines::{Place, tail};
use crate::stages::{
    BodyStage, Outcome, after_cr_stage, after_data_stage, data_stage, first_stage, line_stage,
    sized_stage, trailers_stage,
};
use link_uri::{Heard, Reply, wanted};
use rdf_terms::{ByteBuf, Memory};
use std::alloc::Global;
use std::marker::Model;
use std::mem;

/// What the end of the input gives.
#[derive(Debug, Drop)]
pub enum Ended {
    Done(Heard),
    Cut,
}

/// A message whose final head has been read.
#[derive(Drop)]
pub struct Body {
    alloc: Global,
    limit: u64,
    stage: BodyStage,
    reply: Reply,
    body: Vec<u8>,
}

impl Model for Body {
    ghost use Rattle.http_message.specs.State.{BodyState, IsOpen};

    ghost Value = { BodyState };

    ghost view = { λ b. record { limit = b.limit; stage = b.stage; reply = b.reply; body = b.body.items } };

    ghost invariant = { λ b. IsOpen b.stage b.limit b.body.items };
}

// The lesser of a number and a length.
fn at_most(left: u64, len: usize) -> usize
    ensures { result ≡ min left len }
{
    if left < len as u64 {
        left as usize
    } else {
        len
    }
}

impl Body {
    ghost use Rattle.http_message.specs.State.{BodyState};

    /// A message whose head says these facts.
    pub fn start(alloc: Global, limit: u64, facts: Facts) -> Body
        ensures next { (more : List ℕ) → message_from facts limit more ≡ progress_from result more }
        ensures limit { result.limit ≡ limit }
    {
        let stage = first_stage(wanted(&facts.reply), facts.framing, limit);
        Body {
            alloc,
            limit,
            stage,
            reply: facts.reply,
            body: Vec::new(alloc),
        }
    }

    /// A message whose head is none.
    pub fn malformed(alloc: Global, limit: u64) -> Body
        ensures next { (more : List ℕ) → progress_from result more ≡ decided heard.Malformed }
        ensures limit { result.limit ≡ limit }
    {
        Body {
            alloc,
            limit,
            stage: BodyStage::Decided(Outcome::Malformed),
            reply: empty_reply(alloc),
            body: Vec::new(alloc),
        }
    }

    // Reads bytes of a body whose length is known.
    fn step_sized(&mut self, left: u64, piece: &[u8]) -> Result<usize, Memory>
        requires stage { self.old.stage ≡ BodyStage.Sized left }
        requires some { 0 < length piece.now }
        ensures ok { IfOk result (λ n. Steps self.old piece.now n self.new) }
        ensures err { OnErr result (self.new ≡ self.old) }
    {
        let n = at_most(left, piece.len());
        self.body.extend_from_slice(&piece[..n])?;
        self.stage = sized_stage(left - n as u64);
        Ok(n)
    }

    // Reads bytes of a chunk's data.
    fn step_data(&mut self, left: u64, piece: &[u8]) -> Result<usize, Memory>
        requires stage { self.old.stage ≡ BodyStage.Data left }
        requires some { 0 < length piece.now }
        ensures ok { IfOk result (λ n. Steps self.old piece.now n self.new) }
        ensures err { OnErr result (self.new ≡ self.old) }
    {
        let n = at_most(left, piece.len());
        let room = self.limit.saturating_sub(self.body.len() as u64);
        if room < n as u64 {
            self.stage = BodyStage::Decided(Outcome::TooLong);
            return Ok(n);
        }
        self.body.extend_from_slice(&piece[..n])?;
        self.stage = data_stage(left - n as u64);
        Ok(n)
    }

    // Reads bytes of a body that the end of the input ends.
    fn step_until_end(&mut self, piece: &[u8]) -> Result<usize, Memory>
        requires stage { self.old.stage ≡ BodyStage.UntilEnd }
        requires some { 0 < length piece.now }
        ensures ok { IfOk result (λ n. Steps self.old piece.now n self.new) }
        ensures err { OnErr result (self.new ≡ self.old) }
    {
        let room = self.limit - self.body.len() as u64;
        if room < piece.len() as u64 {
            self.stage = BodyStage::Decided(Outcome::TooLong);
        } else {
            self.body.extend_from_slice(piece)?;
        }
        Ok(piece.len())
    }

    // Reads a byte of a chunk's line.
    fn step_line(&mut self, line: ChunkLine, seen: u32, piece: &[u8]) -> usize
        requires stage { self.old.stage ≡ BodyStage.Line line seen }
        requires some { 0 < length piece.now }
        ensures { Steps self.old piece.now result self.new }
    {
        self.stage = line_stage(line, seen, piece[0]);
        1
    }

    // Reads the CR after a chunk's data.
    fn step_after_data(&mut self, piece: &[u8]) -> usize
        requires stage { self.old.stage ≡ BodyStage.AfterData }
        requires some { 0 < length piece.now }
        ensures { Steps self.old piece.now result self.new }
    {
        self.stage = after_data_stage(piece[0]);
        1
    }

    // Reads the LF after a chunk's data.
    fn step_after_cr(&mut self, piece: &[u8]) -> usize
        requires stage { self.old.stage ≡ BodyStage.AfterCr }
        requires some { 0 < length piece.now }
        ensures { Steps self.old piece.now result self.new }
    {
        self.stage = after_cr_stage(piece[0]);
        1
    }

    // Reads a byte of the trailers.
    fn step_trailers(&mut self, place: Place, seen: u32, piece: &[u8]) -> usize
        requires stage { self.old.stage ≡ BodyStage.Trailers place seen }
        requires some { 0 < length piece.now }
        ensures { Steps self.old piece.now result self.new }
    {
        self.stage = trailers_stage(place, seen, piece[0]);
        1
    }

    // Reads some bytes of the piece.
    fn step(&mut self, piece: &[u8]) -> Result<usize, Memory>
        requires { 0 < length piece.now }
        ensures ok { IfOk result (λ n. Steps self.old piece.now n self.new) }
        ensures err { OnErr result (self.new ≡ self.old) }
    {
        match self.stage {
            BodyStage::Sized(left) => self.step_sized(left, piece),
            BodyStage::UntilEnd => self.step_until_end(piece),
            BodyStage::Line(line, seen) => Ok(self.step_line(line, seen, piece)),
            BodyStage::Data(left) => self.step_data(left, piece),
            BodyStage::AfterData => Ok(self.step_after_data(piece)),
            BodyStage::AfterCr => Ok(self.step_after_cr(piece)),
            BodyStage::Trailers(place, seen) => Ok(self.step_trailers(place, seen, piece)),
            BodyStage::Decided(_) => Ok(piece.len()),
        }
    }

    // Reads the piece, or a part of it for want of memory.
    fn read(&mut self, piece: &[u8]) -> Result<(), Memory>
        ensures next { OnOk result (Continues self.old piece.now self.new) }
        ensures grows { Grows self.old self.new }
    {
        let mut at = 0;
        while at < piece.len() {
            at += self.step(tail(piece, at))?;
        }
        Ok(())
    }

    // Takes the body back to what it was.
    fn take_back(&mut self, stage: BodyStage, len: usize)
        requires open { IsOpen stage self.old.limit (take len self.old.body) }
        ensures { self.new ≡ record self.old { stage = stage; body = take len self.old.body } }
    {
        self.body.truncate(len);
        self.stage = stage;
    }

    /// Reads the next piece. It costs the bytes of the piece, once each.
    pub fn feed(&mut self, piece: &[u8]) -> Result<(), Memory>
        ensures next { OnOk result (Continues self.old piece.now self.new) }
        ensures limit { self.new.limit ≡ self.old.limit }
        ensures err { OnErr result (self.new ≡ self.old) }
    {
        let stage = self.stage;
        let len = self.body.len();
        match self.read(piece) {
            Ok(()) => Ok(()),
            Err(memory) => {
                self.take_back(stage, len);
                Err(memory)
            }
        }
    }

    /// What the body is, where that is decided.
    pub fn outcome(&self) -> Option<Outcome>
        ensures yes { IfSome result (λ outcome. self.now.stage ≡ BodyStage.Decided outcome) }
        ensures no { IfNone result ((ended : Option Heard) × (progress_from self.now [] ≡ undecided ended)) }
        ensures stage { IfNone result (is_decided self.now.stage ≡ false) }
    {
        match self.stage {
            BodyStage::Decided(outcome) => Some(outcome),
            _ => None,
        }
    }

    /// Whether nothing more is read.
    pub fn is_decided(&self) -> bool
        ensures { result ≡ is_decided self.now.stage }
    {
        matches!(self.stage, BodyStage::Decided(_))
    }

    // Takes the reply, with what has come of its body.
    fn take_reply(&mut self) -> Reply
        ensures reply { result ≡ record self.old.reply { body = self.old.body } }
        ensures stage { self.new.stage ≡ self.old.stage }
    {
        let alloc = self.alloc;
        let body = mem::replace(&mut self.body, Vec::new(alloc));
        let mut reply = mem::replace(&mut self.reply, empty_reply(alloc));
        reply.body = ByteBuf::from_vec(body);
        reply
    }

    /// Takes what is heard.
    pub fn take(&mut self, outcome: Outcome) -> Heard
        requires { self.old.stage ≡ BodyStage.Decided outcome }
        ensures heard { (more : List ℕ) → progress_from self.old more ≡ decided result }
        ensures stage { self.new.stage ≡ self.old.stage }
    {
        match outcome {
            Outcome::Whole => Heard::Reply(self.take_reply()),
            Outcome::Malformed => Heard::Malformed,
            Outcome::TooLong => Heard::TooLong,
        }
    }

    // Takes the body of a message that the end of the input ends.
    fn take_ended(&mut self) -> Heard
        requires { self.old.stage ≡ BodyStage.UntilEnd }
        ensures heard { progress_from self.old [] ≡ undecided (Some result) }
        ensures done { is_decided self.new.stage ≡ true }
    {
        self.stage = BodyStage::Decided(Outcome::Whole);
        Heard::Reply(self.take_reply())
    }

    /// What is heard where the input ends. Once something is heard, the body is decided.
    pub fn end(&mut self) -> Ended
        requires { is_decided self.old.stage ≡ false }
        ensures heard { progress_from self.old [] ≡ undecided (heard_at_end result) }
        ensures after { IsBodyAfterEnd self.old result self.new }
    {
        match self.stage {
            BodyStage::UntilEnd => Ended::Done(self.take_ended()),
            _ => Ended::Cut,
        }
    }
}

fn empty_reply(alloc: Global) -> Reply {
    Reply {
        status: 0,
        media: None,
        coding: None,
        location: None,
        body: ByteBuf::new(alloc),
    }
}
