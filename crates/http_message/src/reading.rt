ghost use Rattle.std.specs.Prelude.{◌≡◌, ◌≤◌, ◌<◌, ◌+◌, ℕ, List, ◌++◌, [], ◌∷◌, length, take, IfOk, OnOk, OnErr, IfSome, IfNone, None, false};
ghost use Rattle.http_message.specs.Views.{IsSound, IsInHead, HasReadAt, HasBlank, HasHead, IsAfterHead};
ghost use Rattle.http_message.specs.Lines.{skip_from, held, end_from, place_after};
ghost use Rattle.http_message.specs.Reading.{head_limit};

use crate::body::{Body, Ended};
use crate::judging::{Verdict, judge};
use crate::lines::{Place, Scan, find, tail};
use link_uri::Heard;
use rdf_terms::Memory;
use std::alloc::Global;
use std::marker::Model;

/// The bytes of a connection in which the final head has to end.
const HEAD_LIMIT: usize = 65536;

/// Where the reading of a connection stands.
#[derive(Drop)]
pub enum Phase {
    /// At the empty lines before the first head; perhaps after a CR.
    Blank(bool),
    /// In a head.
    Head(Place),
    /// After the final head.
    Body(Body),
}

/// What a piece gives.
#[derive(Debug, Drop)]
pub enum Fed {
    /// What is heard isn't decided yet.
    More,
    Done(Heard),
}

/// A response that is read as it comes, under a limit of its body's bytes.
///
/// `specs/Views.antt` ties it to the bytes that were fed: `HasRead reading fed`.
#[derive(Drop)]
pub struct Reading {
    alloc: Global,
    limit: u64,
    /// How many bytes have come, up to the end of the final head.
    seen: usize,
    phase: Phase,
    /// What has come of the head.
    head: Vec<u8>,
}

impl Model for Reading {
    ghost use Rattle.http_message.specs.Views.{ReadingState, IsSound};

    ghost Value = { ReadingState };

    ghost view = { λ r. record { limit = r.limit; seen = r.seen; phase = r.phase; head = r.head.items } };

    ghost invariant = { λ r. IsSound r.phase r.seen r.head.items };
}

impl Reading {
    ghost use Rattle.http_message.specs.Views.{ReadingState, HasRead, Takes, Gives, Ends, IsAfterEnd, is_done, tells};

    /// A reading to which nothing has come. No memory is taken.
    pub fn new(alloc: Global, limit: u64) -> Reading
        ensures read { HasRead result [] }
        ensures limit { result.limit ≡ limit }
        ensures going { is_done result ≡ false }
    {
        Reading {
            alloc,
            limit,
            seen: 0,
            phase: Phase::Blank(false),
            head: Vec::new(alloc),
        }
    }

    /// Whether what is heard has been given. No memory is taken.
    pub fn is_done(&self) -> bool
        ensures { result ≡ is_done self.now }
    {
        match &self.phase {
            Phase::Body(body) => body.is_decided(),
            _ => false,
        }
    }

    // Reads some bytes of the piece.
    fn step(&mut self, piece: &[u8]) -> Result<usize, Memory>
        requires { 0 < length piece.now }
        ensures { IfOk result (λ n. Takes self.old piece.now n self.new) }
    {
        match &mut self.phase {
            Phase::Blank(cr) => {
                let next = after_blank(
                    self.alloc,
                    self.limit,
                    self.seen,
                    *cr,
                    piece[0],
                    &mut self.head,
                )?;
                self.seen += 1;
                self.phase = next;
                Ok(1)
            }
            Phase::Head(place) => {
                let (n, next) = after_piece(
                    self.alloc,
                    self.limit,
                    self.seen,
                    *place,
                    piece,
                    &mut self.head,
                )?;
                self.seen += n;
                self.phase = next;
                Ok(n)
            }
            Phase::Body(body) => {
                body.feed(piece)?;
                Ok(piece.len())
            }
        }
    }

    // Reads the piece, or a part of it for want of memory.
    fn read(&mut self, piece: &[u8]) -> Result<(), Memory>
        ensures next { OnOk result ((fed : List ℕ) → HasRead self.old fed → HasRead self.new (fed ++ piece.now)) }
        ensures limit { OnOk result (self.new.limit ≡ self.old.limit) }
    {
        let mut at = 0;
        while at < piece.len() {
            at += self.step(tail(piece, at))?;
        }
        Ok(())
    }

    // Reads the piece by a reading beside this one, which it then becomes.
    fn read_aside(&mut self, phase: Phase, piece: &[u8]) -> Result<(), Memory>
        requires { phase ≡ self.old.phase }
        ensures next { OnOk result ((fed : List ℕ) → HasRead self.old fed → HasRead self.new (fed ++ piece.now)) }
        ensures limit { OnOk result (self.new.limit ≡ self.old.limit) }
        ensures err { OnErr result (self.new ≡ self.old) }
    {
        let mut aside = Reading {
            alloc: self.alloc,
            limit: self.limit,
            seen: self.seen,
            phase,
            head: Vec::from_slice(self.alloc, &self.head)?,
        };
        aside.read(piece)?;
        *self = aside;
        Ok(())
    }

    // Reads the piece, or nothing of it for want of memory.
    fn read_whole(&mut self, piece: &[u8]) -> Result<(), Memory>
        ensures next { OnOk result ((fed : List ℕ) → HasRead self.old fed → HasRead self.new (fed ++ piece.now)) }
        ensures limit { OnOk result (self.new.limit ≡ self.old.limit) }
        ensures err { OnErr result (self.new ≡ self.old) }
    {
        match &mut self.phase {
            Phase::Body(body) => return body.feed(piece),
            Phase::Blank(cr) => {
                let phase = Phase::Blank(*cr);
                return self.read_aside(phase, piece);
            }
            Phase::Head(place) => {
                if let Some(next) = place_in_head(self.seen, *place, piece) {
                    self.head.extend_from_slice(piece)?;
                    self.seen += piece.len();
                    *place = next;
                    return Ok(());
                }
                let phase = Phase::Head(*place);
                return self.read_aside(phase, piece);
            }
        }
    }

    /// Takes the next piece. The reading is done afterwards exactly where what is heard is given; after want of memory it is as
    /// before. It costs the bytes of the piece, and once the bytes of each head.
    pub fn feed(&mut self, piece: &[u8]) -> Result<Fed, Memory>
        requires going { is_done self.old ≡ false }
        ensures done { IfOk result (λ given. is_done self.new ≡ tells given) }
        ensures gives { IfOk result (λ given. (fed : List ℕ) → HasRead self.old fed → Gives self.old.limit (fed ++ piece.now) given self.new) }
        ensures err { OnErr result (self.new ≡ self.old) }
    {
        self.read_whole(piece)?;
        match &mut self.phase {
            Phase::Blank(_) => return Ok(Fed::More),
            Phase::Head(_) => return Ok(Fed::More),
            Phase::Body(body) => match body.outcome() {
                Some(outcome) => return Ok(Fed::Done(body.take(outcome))),
                None => return Ok(Fed::More),
            },
        }
    }

    /// Tells that the input has ended. No memory is taken.
    pub fn end(&mut self) -> Ended
        requires going { is_done self.old ≡ false }
        ensures ends { (fed : List ℕ) → HasRead self.old fed → Ends self.old.limit fed result }
        ensures after { IsAfterEnd self.old result self.new }
    {
        match &mut self.phase {
            Phase::Blank(_) => return Ended::Cut,
            Phase::Head(_) => return Ended::Cut,
            Phase::Body(body) => return body.end(),
        }
    }
}

// Where the next byte stands after a piece in a head that ends no head; none where it may end one.
fn place_in_head(seen: usize, place: Place, piece: &[u8]) -> Option<Place>
    requires { seen ≤ head_limit }
    ensures none { IfSome result (λ next. end_from place piece.now ≡ None) }
    ensures place { IfSome result (λ next. place_after place piece.now ≡ next) }
    ensures fits { IfSome result (λ next. seen + length piece.now ≤ head_limit) }
{
    if piece.len() > HEAD_LIMIT - seen {
        return None;
    }
    match find(place, piece) {
        Scan::At(next) => Some(next),
        Scan::End(_) => None,
    }
}

// The phase after a byte of the empty lines before the first head.
fn after_blank(
    alloc: Global,
    limit: u64,
    seen: usize,
    cr: bool,
    b: u8,
    head: &mut Vec<u8>,
) -> Result<Phase, Memory>
    requires head { head.old.items ≡ [] }
    requires seen { seen ≤ head_limit }
    requires held { length (held cr) ≤ seen }
    ensures sound { IfOk result (λ p. IsSound p (seen + 1) head.new.items) }
    ensures next { IfOk result (λ p. (fed : List ℕ) → HasBlank cr seen fed → HasReadAt p limit (seen + 1) head.new.items (fed ++ b ∷ [])) }
    ensures err { OnErr result (head.new.items ≡ head.old.items) }
{
    if seen >= HEAD_LIMIT {
        return Ok(Phase::Body(Body::malformed(alloc, limit)));
    }
    match blank_step(cr, b) {
        Some(next) => Ok(Phase::Blank(next)),
        None => {
            start_head(head, cr, b)?;
            Ok(Phase::Head(Place::Inside))
        }
    }
}

// Whether a CR has come before the next byte, where this one is of an empty line.
fn blank_step(cr: bool, b: u8) -> Option<bool>
    ensures blank { IfSome result (λ next. (more : List ℕ) → skip_from cr (b ∷ more) ≡ skip_from next more) }
    ensures short { IfSome result (λ next. length (held next) ≤ 1) }
    ensures head { IfNone result ((more : List ℕ) → skip_from cr (b ∷ more) ≡ held cr ++ b ∷ more) }
    ensures none { IfNone result (end_from Place.Front (held cr ++ b ∷ []) ≡ None) }
    ensures place { IfNone result (place_after Place.Front (held cr ++ b ∷ []) ≡ Place.Inside) }
{
    if b == b'\n' {
        Some(false)
    } else if b == b'\r' && !cr {
        Some(true)
    } else {
        None
    }
}

// Keeps the first bytes of a head.
fn start_head(head: &mut Vec<u8>, cr: bool, b: u8) -> Result<(), Memory>
    ensures ok { OnOk result (head.new.items ≡ head.old.items ++ (held cr ++ b ∷ [])) }
    ensures err { OnErr result (head.new.items ≡ head.old.items) }
{
    if cr {
        head.extend_from_slice(&[b'\r', b])?;
    } else {
        head.extend_from_slice(&[b])?;
    }
    Ok(())
}

// The phase after a head that has ended.
fn after_end(alloc: Global, limit: u64, head: &mut Vec<u8>) -> Result<Phase, Memory>
    requires { length head.old.items ≤ head_limit }
    ensures ok { IfOk result (λ p. IsAfterHead limit head.old.items p head.new.items) }
    ensures err { OnErr result (head.new.items ≡ head.old.items) }
{
    match judge(alloc, head.as_slice())? {
        Verdict::NoHead => Ok(Phase::Body(Body::malformed(alloc, limit))),
        Verdict::Interim => {
            head.clear();
            Ok(Phase::Head(Place::Front))
        }
        Verdict::Final(facts) => Ok(Phase::Body(Body::start(alloc, limit, facts))),
    }
}

// How many bytes of a piece were read in a head, and the phase after them.
fn after_piece(
    alloc: Global,
    limit: u64,
    seen: usize,
    place: Place,
    piece: &[u8],
    head: &mut Vec<u8>,
) -> Result<(usize, Phase), Memory>
    requires sound { IsInHead place seen head.old.items }
    requires some { 0 < length piece.now }
    ensures some { IfOk result (λ r. 0 < r.0) }
    ensures within { IfOk result (λ r. r.0 ≤ length piece.now) }
    ensures sound { IfOk result (λ r. IsSound r.1 (seen + r.0) head.new.items) }
    ensures next { IfOk result (λ r. (fed : List ℕ) → HasHead seen head.old.items fed → HasReadAt r.1 limit (seen + r.0) head.new.items (fed ++ take r.0 piece.now)) }
    ensures err { OnErr result (head.new.items ≡ head.old.items) }
{
    if seen >= HEAD_LIMIT {
        return Ok((1, Phase::Body(Body::malformed(alloc, limit))));
    }
    let most = piece.len().min(HEAD_LIMIT - seen);
    let part = &piece[..most];
    match find(place, part) {
        Scan::At(next) => {
            head.extend_from_slice(part)?;
            Ok((most, Phase::Head(next)))
        }
        Scan::End(n) => {
            let len = head.len();
            head.extend_from_slice(&part[..n])?;
            match after_end(alloc, limit, head) {
                Ok(next) => Ok((n, next)),
                Err(e) => {
                    head.truncate(len);
                    Err(e)
                }
            }
        }
    }
}
