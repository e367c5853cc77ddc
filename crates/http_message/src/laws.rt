//! Laws of the definitions. Each function's contract is one law, and its body is empty.
ghost use Rattle.std.specs.Prelude.{◌≡◌, ◌≢◌, ◌≤◌, ◌++◌, ℕ, List, [], length, false, Option, Some};
ghost use Rattle.httparse.specs.Grammar.{ResponseHead, print_response};
ghost use Rattle.link_uri.specs.declared.heard.Heard.{Heard};
ghost use Rattle.link_uri.specs.declared.heard.Heard.TheVariants.{Never};
ghost use Rattle.http_message.specs.declared.framing.Framing.TheVariants.{Chunked, Sized};
ghost use Rattle.http_message.specs.Heads.{IsHead};
ghost use Rattle.http_message.specs.Facts.{facts_of, is_interim};
ghost use Rattle.http_message.specs.Chunks.{whole_body};
ghost use Rattle.http_message.specs.Spelled.{Chunk, EachChunk, IsLine, data_of, spelled};
ghost use Rattle.http_message.specs.Body.{Progress, message_from, decided, undecided, body_from};
ghost use Rattle.http_message.specs.Reading.{Reads, head_limit, most_undecided};

/// Bytes come to one thing at most.
pub fn bytes_have_one_reading()
    ensures { (limit : ℕ) (bytes : List ℕ) (p q : Progress) → Reads limit bytes p → Reads limit bytes q → p ≡ q }
{}

/// Each list of bytes comes to something.
pub fn bytes_have_a_reading()
    ensures { (limit : ℕ) (bytes : List ℕ) → (p : Progress) × Reads limit bytes p }
{}

/// What some bytes decide stays decided, whatever follows.
pub fn what_is_decided_stays_decided()
    ensures { (limit : ℕ) (bytes more : List ℕ) (heard : Heard) → Reads limit bytes (decided heard) → Reads limit (bytes ++ more) (decided heard) }
{}

/// The bytes of an undecided reading are few.
pub fn undecided_bytes_are_few()
    ensures { (limit : ℕ) (bytes : List ℕ) (ended : Option Heard) → Reads limit bytes (undecided ended) → length bytes ≤ most_undecided limit }
{}

/// No bytes come to what a web answers that never answers.
pub fn nothing_read_is_never()
    ensures decided { (limit : ℕ) (bytes : List ℕ) (heard : Heard) → Reads limit bytes (decided heard) → heard ≢ Never }
    ensures ended { (limit : ℕ) (bytes : List ℕ) (heard : Heard) → Reads limit bytes (undecided (Some heard)) → heard ≢ Never }
{}

/// A printed final head with no empty line before it is read as it says, and what follows is its body.
pub fn a_printed_head_is_read_as_it_says()
    ensures { (limit : ℕ) (h : ResponseHead) (body : List ℕ) → IsHead (print_response h) h → h.blank ≡ [] → is_interim h ≡ false
        → length (print_response h) ≤ head_limit → Reads limit (print_response h ++ body) (message_from (facts_of h) limit body) }
{}

/// A body of a stated length is that many bytes, whatever follows.
pub fn a_stated_length_is_that_many_bytes()
    ensures { (body more : List ℕ) (limit : ℕ) → length body ≤ limit
        → body_from (Sized (length body)) limit (body ++ more) ≡ whole_body body }
{}

/// Chunks as they are spelled, a last line and an empty line are read as the chunks' data, whatever follows.
pub fn spelled_chunks_are_read_as_their_data()
    ensures { (chunks : List Chunk) (last more : List ℕ) (limit : ℕ) → EachChunk chunks → IsLine last 0 → length (data_of chunks) ≤ limit
        → body_from Chunked limit (spelled chunks last ++ more) ≡ whole_body (data_of chunks) }
{}
