//! Terminals: the tokens that Turtle and SPARQL share, what each is made of, and what it stands for.
//!
//! Promise: bytes are read as UTF-8 and each character is put into its class, as `specs/Utf8.antt`
//! and `specs/Class.antt` say. Rules are regular expressions over classes (`specs/Rules.antt`), the
//! terminals that both languages have are in `specs/Terminals.antt`, and what the token list of a
//! text is stands in `specs/Tokens.antt`, for any set of rules. Each call on a token's text gives the
//! text that `specs/Values.antt` defines, with its escapes undone, and none exactly where that is no
//! UTF-8 (`specs/Texts.antt`); keywords are read in any case (`specs/Words.antt`).
//! Not here: which rules a language has, and the automata that follow them (`turtle_lexer`,
//! `sparql_lexer`), and which texts are IRIs (`iri_core`).
//!
//! Each call takes time linear in its texts. Want of memory is `Memory`.
#![tactic(auto)]

mod class;
mod escape;
mod gap;
mod groups;
mod laws;
mod texts;
mod unescaping;
mod utf8;
mod words;

pub use crate::class::{Class, class_of};
pub use crate::escape::{is_iri_code, is_scalar, with_digit};
pub use crate::gap::{Gap, gap_at};
pub use crate::groups::Quote;
pub use crate::laws::decoded_is_encoded;
pub use crate::texts::{
    iri_text, label_text, local_text, plain_text, prefix_text, string_text, tag_text, variable_text,
};
pub use crate::utf8::{char_at, symbol_at};
pub use crate::words::is_word;
