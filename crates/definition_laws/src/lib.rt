//! Laws of the definitions: what is cut makes up the whole, what is written reads back, what is counted stays within its limit.
//!
//! Promise: each function's contract is one law over the definitions of the crates below, and its body is empty.
//! Not here: laws on which a proof stands; they are in the crate of their definition. Nothing stands on this crate, so a law
//! more costs no other crate's proof.
#![tactic(auto)]

mod blocks;
mod cells;
mod declarations;
mod directives;
mod heads;
mod lines;
mod numbers;
mod queries;
mod references;
mod scalars;
mod serving;
mod token_texts;

pub use crate::blocks::blocks_are_apart_where_a_brace_stands;
pub use crate::cells::cells_begin_where_items_do;
pub use crate::declarations::what_a_declaration_names_stands_behind_its_word;
pub use crate::directives::what_a_directive_names_stands_behind_its_word;
pub use crate::heads::only_a_wanted_body_counts;
pub use crate::lines::tokens_stand_on_lines;
pub use crate::numbers::a_written_number_reads_back;
pub use crate::queries::{
    a_query_has_fewer_names_than_the_limit, each_selected_variable_has_its_name,
    no_variable_is_left_without_a_number,
};
pub use crate::references::parts_make_up_the_text;
pub use crate::scalars::each_scalar_is_decoded;
pub use crate::serving::each_request_has_a_response;
pub use crate::token_texts::{
    each_token_of_a_query_has_a_text, each_token_of_ntriples_has_a_text,
    each_token_of_turtle_has_a_text,
};
