ghost use Rattle.std.specs.Prelude.{◌≡◌, ℕ, List, ◌∷◌, [], if◌then◌else◌};
ghost use Rattle.http_message.specs.Chunks.{whole_body, chunked, chunked_at, data_place, after_line, in_line, in_trailers, after_data, after_cr};
ghost use Rattle.http_message.specs.Body.{sized, body_from};
ghost use Rattle.http_message.specs.LineStates.{lined};
ghost use Rattle.http_message.specs.State.{resume_at, IsOpen};

use crate::chunk_line::{ChunkLine, next_in_line, size_at_end};
use crate::framing::Framing;
use crate::lines::{Place, ends_empty, next_place};

/// What a decided body is.
#[derive(Clone, Copy)]
pub enum Outcome {
    Whole,
    Malformed,
    TooLong,
}

/// Where the reading of a body stands.
#[derive(Clone, Copy)]
pub enum BodyStage {
    /// So many bytes are to come.
    Sized(u64),
    /// The end of the input ends it.
    UntilEnd,
    /// In a chunk's line, of which so many bytes have come.
    Line(ChunkLine, u32),
    /// In a chunk's data, of which so many bytes are to come.
    Data(u64),
    /// Before the CR after a chunk's data.
    AfterData,
    /// Before the LF after it.
    AfterCr,
    /// In the trailers, of which so many bytes have come.
    Trailers(Place, u32),
    Decided(Outcome),
}

/// Where the reading stands when so many bytes are to come.
pub fn sized_stage(rest: u64) -> BodyStage
    ensures stays { (body : List ℕ) (limit : ℕ) → IsOpen result limit body }
    ensures next { (body more : List ℕ) (limit : ℕ) → sized rest body more ≡ resume_at result limit body more }
{
    if rest == 0 {
        BodyStage::Decided(Outcome::Whole)
    } else {
        BodyStage::Sized(rest)
    }
}

/// Where the reading stands when so many bytes of a chunk's data are to come.
pub fn data_stage(rest: u64) -> BodyStage
    ensures stays { (body : List ℕ) (limit : ℕ) → IsOpen result limit body }
    ensures next { (body more : List ℕ) (limit : ℕ) → chunked limit (data_place rest) body more ≡ resume_at result limit body more }
{
    if rest == 0 {
        BodyStage::AfterData
    } else {
        BodyStage::Data(rest)
    }
}

// Where the reading stands after a chunk's line.
fn after_line_stage(size: Option<u64>) -> BodyStage
    ensures stays { (body : List ℕ) (limit : ℕ) → IsOpen result limit body }
    ensures next { (body more : List ℕ) (limit : ℕ) → chunked_at limit (after_line size) body more ≡ resume_at result limit body more }
{
    match size {
        None => BodyStage::Decided(Outcome::Malformed),
        Some(n) => {
            if n == 0 {
                BodyStage::Trailers(Place::Front, 0)
            } else {
                BodyStage::Data(n)
            }
        }
    }
}

/// Where the reading stands after a byte of a chunk's line.
#[tactic(auto, unfolding(crate::specs::LineStates::lined))]
pub fn line_stage(line: ChunkLine, seen: u32, b: u8) -> BodyStage
    ensures stays { (body : List ℕ) (limit : ℕ) → IsOpen result limit body }
    ensures next { (body more : List ℕ) (limit : ℕ) → lined limit line seen body (b ∷ more) ≡ resume_at result limit body more }
{
    if b == b'\n' {
        after_line_stage(size_at_end(line))
    } else if seen >= 1023 {
        BodyStage::Decided(Outcome::Malformed)
    } else {
        BodyStage::Line(next_in_line(line, b), seen + 1)
    }
}

/// Where the reading stands at the front of a chunk's line.
#[tactic(auto, using(crate::proofs::LineStateLemmas::lined_from_front))]
pub fn front_stage() -> BodyStage
    ensures stays { (body : List ℕ) (limit : ℕ) → IsOpen result limit body }
    ensures next { (body more : List ℕ) (limit : ℕ) → chunked limit (in_line []) body more ≡ resume_at result limit body more }
{
    BodyStage::Line(ChunkLine::Front, 0)
}

/// Where the reading stands after the first byte that follows a chunk's data.
#[tactic(auto, unfolding(crate::specs::Chunks::chunked))]
pub fn after_data_stage(b: u8) -> BodyStage
    ensures stays { (body : List ℕ) (limit : ℕ) → IsOpen result limit body }
    ensures next { (body more : List ℕ) (limit : ℕ) → chunked limit after_data body (b ∷ more) ≡ resume_at result limit body more }
{
    if b == b'\r' {
        BodyStage::AfterCr
    } else {
        BodyStage::Decided(Outcome::Malformed)
    }
}

/// Where the reading stands after the second.
#[tactic(auto, unfolding(crate::specs::Chunks::chunked))]
pub fn after_cr_stage(b: u8) -> BodyStage
    ensures stays { (body : List ℕ) (limit : ℕ) → IsOpen result limit body }
    ensures next { (body more : List ℕ) (limit : ℕ) → chunked limit after_cr body (b ∷ more) ≡ resume_at result limit body more }
{
    if b == b'\n' {
        front_stage()
    } else {
        BodyStage::Decided(Outcome::Malformed)
    }
}

/// Where the reading stands after a byte of the trailers.
#[tactic(auto, unfolding(crate::specs::Chunks::chunked))]
pub fn trailers_stage(place: Place, seen: u32, b: u8) -> BodyStage
    ensures stays { (body : List ℕ) (limit : ℕ) → IsOpen result limit body }
    ensures next { (body more : List ℕ) (limit : ℕ) → chunked limit (in_trailers place seen) body (b ∷ more) ≡ resume_at result limit body more }
{
    if ends_empty(place, b) {
        BodyStage::Decided(Outcome::Whole)
    } else if seen >= 65535 {
        BodyStage::Decided(Outcome::Malformed)
    } else {
        BodyStage::Trailers(next_place(place, b), seen + 1)
    }
}

fn framed_stage(framing: Framing, limit: u64) -> BodyStage
    ensures stays { IsOpen result limit [] }
    ensures next { (more : List ℕ) → body_from framing limit more ≡ resume_at result limit [] more }
{
    match framing {
        Framing::Chunked => front_stage(),
        Framing::Sized(n) => {
            if limit < n {
                BodyStage::Decided(Outcome::TooLong)
            } else {
                sized_stage(n)
            }
        }
        Framing::UntilEnd => BodyStage::UntilEnd,
        Framing::Bad => BodyStage::Decided(Outcome::Malformed),
    }
}

/// Where the reading of a body begins; one that isn't wanted is whole at once.
pub fn first_stage(is_wanted: bool, framing: Framing, limit: u64) -> BodyStage
    ensures stays { IsOpen result limit [] }
    ensures next { (more : List ℕ) → (if is_wanted then body_from framing limit more else whole_body []) ≡ resume_at result limit [] more }
{
    if is_wanted {
        framed_stage(framing, limit)
    } else {
        BodyStage::Decided(Outcome::Whole)
    }
}
