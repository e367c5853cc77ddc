//! Keywords, which are read in any case.

ghost use Rattle.std.specs.Prelude.{◌≡◌};
ghost use Rattle.sparql_resolve.specs.Words as spec;

use crate::kind::Kind;
use expr_eval::Function;
use terminals::is_word;

fn head_word(word: &[u8]) -> Option<Kind>
    ensures { result ≡ spec.head_word word.now }
{
    if is_word(word, b"base") {
        return Some(Kind::Base);
    }
    if is_word(word, b"prefix") {
        return Some(Kind::Prefix);
    }
    if is_word(word, b"select") {
        return Some(Kind::Select);
    }
    if is_word(word, b"distinct") {
        return Some(Kind::Distinct);
    }
    if is_word(word, b"where") {
        return Some(Kind::Where);
    }
    None
}

fn group_word(word: &[u8]) -> Option<Kind>
    ensures { result ≡ spec.group_word word.now }
{
    if is_word(word, b"union") {
        return Some(Kind::Union);
    }
    if is_word(word, b"optional") {
        return Some(Kind::Optional);
    }
    if is_word(word, b"filter") {
        return Some(Kind::Filter);
    }
    if is_word(word, b"true") {
        return Some(Kind::Boolean(true));
    }
    if is_word(word, b"false") {
        return Some(Kind::Boolean(false));
    }
    None
}

fn order_word(word: &[u8]) -> Option<Kind>
    ensures { result ≡ spec.order_word word.now }
{
    if is_word(word, b"order") {
        return Some(Kind::Order);
    }
    if is_word(word, b"by") {
        return Some(Kind::By);
    }
    if is_word(word, b"asc") {
        return Some(Kind::Asc);
    }
    if is_word(word, b"desc") {
        return Some(Kind::Desc);
    }
    None
}

fn call_word(word: &[u8]) -> Option<Kind>
    ensures { result ≡ spec.call_word word.now }
{
    if is_word(word, b"bound") {
        return Some(Kind::Bound);
    }
    if is_word(word, b"sameterm") {
        return Some(Kind::SameTerm);
    }
    if is_word(word, b"str") {
        return Some(Kind::Function(Function::Str));
    }
    if is_word(word, b"lang") {
        return Some(Kind::Function(Function::Lang));
    }
    if is_word(word, b"datatype") {
        return Some(Kind::Function(Function::Datatype));
    }
    None
}

fn test_word(word: &[u8]) -> Option<Kind>
    ensures { result ≡ spec.test_word word.now }
{
    if is_word(word, b"isiri") || is_word(word, b"isuri") {
        return Some(Kind::Function(Function::IsIri));
    }
    if is_word(word, b"isblank") {
        return Some(Kind::Function(Function::IsBlank));
    }
    if is_word(word, b"isliteral") {
        return Some(Kind::Function(Function::IsLiteral));
    }
    None
}

fn is_unsupported_form(word: &[u8]) -> bool
    ensures { result ≡ spec.is_unsupported_form word.now }
{
    is_word(word, b"ask")
        || (is_word(word, b"construct")
            || (is_word(word, b"describe")
                || (is_word(word, b"reduced")
                    || (is_word(word, b"from")
                        || (is_word(word, b"named")
                            || (is_word(word, b"insert") || is_word(word, b"delete")))))))
}

fn is_unsupported_part(word: &[u8]) -> bool
    ensures { result ≡ spec.is_unsupported_part word.now }
{
    is_word(word, b"graph")
        || (is_word(word, b"service")
            || (is_word(word, b"minus")
                || (is_word(word, b"bind")
                    || (is_word(word, b"values")
                        || (is_word(word, b"exists")
                            || (is_word(word, b"not")
                                || (is_word(word, b"in") || is_word(word, b"as"))))))))
}

fn is_unsupported_ending(word: &[u8]) -> bool
    ensures { result ≡ spec.is_unsupported_ending word.now }
{
    is_word(word, b"group")
        || (is_word(word, b"having")
            || (is_word(word, b"limit")
                || (is_word(word, b"offset")
                    || (is_word(word, b"count")
                        || (is_word(word, b"sum")
                            || (is_word(word, b"min")
                                || (is_word(word, b"max")
                                    || (is_word(word, b"avg")
                                        || (is_word(word, b"sample")
                                            || is_word(word, b"group_concat"))))))))))
}

fn is_unsupported_text_call(word: &[u8]) -> bool
    ensures { result ≡ spec.is_unsupported_text_call word.now }
{
    is_word(word, b"regex")
        || (is_word(word, b"concat")
            || (is_word(word, b"strlen")
                || (is_word(word, b"substr")
                    || (is_word(word, b"ucase")
                        || (is_word(word, b"lcase")
                            || (is_word(word, b"contains")
                                || (is_word(word, b"strstarts")
                                    || (is_word(word, b"strends")
                                        || is_word(word, b"langmatches")))))))))
}

fn is_unsupported_term_call(word: &[u8]) -> bool
    ensures { result ≡ spec.is_unsupported_term_call word.now }
{
    is_word(word, b"if")
        || (is_word(word, b"coalesce")
            || (is_word(word, b"iri")
                || (is_word(word, b"uri")
                    || (is_word(word, b"bnode")
                        || (is_word(word, b"rand")
                            || (is_word(word, b"now") || is_word(word, b"isnumeric")))))))
}

fn is_unsupported_number_call(word: &[u8]) -> bool
    ensures { result ≡ spec.is_unsupported_number_call word.now }
{
    is_word(word, b"abs")
        || (is_word(word, b"ceil")
            || (is_word(word, b"floor")
                || (is_word(word, b"round")
                    || (is_word(word, b"year")
                        || (is_word(word, b"month") || is_word(word, b"day"))))))
}

fn is_unsupported(word: &[u8]) -> bool
    ensures { result ≡ spec.is_unsupported word.now }
{
    is_unsupported_form(word)
        || (is_unsupported_part(word)
            || (is_unsupported_ending(word)
                || (is_unsupported_text_call(word)
                    || (is_unsupported_term_call(word) || is_unsupported_number_call(word)))))
}

fn other_word(word: &[u8]) -> Kind
    ensures { result ≡ spec.other_word word.now }
{
    if is_unsupported(word) {
        return Kind::Unsupported;
    }
    match word {
        [b'a'] => Kind::A,
        _ => Kind::Unknown,
    }
}

fn expression_word(word: &[u8]) -> Option<Kind>
    ensures { result ≡ spec.expression_word word.now }
{
    match call_word(word) {
        Some(kind) => Some(kind),
        None => test_word(word),
    }
}

fn clause_word(word: &[u8]) -> Option<Kind>
    ensures { result ≡ spec.clause_word word.now }
{
    if let Some(kind) = head_word(word) {
        return Some(kind);
    }
    if let Some(kind) = group_word(word) {
        return Some(kind);
    }
    order_word(word)
}

/// What the bytes of a Word are.
pub fn word_kind(word: &[u8]) -> Kind
    ensures { result ≡ spec.word_kind word.now }
{
    if let Some(kind) = clause_word(word) {
        return kind;
    }
    match expression_word(word) {
        Some(kind) => kind,
        None => other_word(word),
    }
}
