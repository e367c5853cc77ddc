//! Cases of the algebra, in prefix form.
//!
//! A case is a list of tokens parted by single spaces. Each item is a word and then its parts:
//!
//! - a field is `=` and a text, or `x` and its bytes in hexadecimal
//! - a term is `<IRI>`, `"form"`, `"form"@tag`, `"form"^^<IRI>` or `"form"^^xsd:name`, without space and
//!   escape; or `iri FIELD`, `literal FORM DATATYPE TAG` (an empty tag is none), `blank DOCUMENT NUMBER`
//! - a spot is a term, or `?N` for the variable number N
//! - `triple TERM TERM TERM` is a triple of the graph, `pattern SPOT SPOT SPOT` a triple pattern
//! - an expression is `$N` for a variable, `const TERM`, `or.N E ..` and `and.N E ..` of N parts, `not E`,
//!   `eq`, `ne`, `lt`, `le`, `gt`, `ge` or `same` and two of them, `sum.SIGNS E ..` with one sign, `+` or `-`,
//!   for each operand after the first, `plus E`, `minus E`, `bound.N`, or `str`, `lang`, `datatype`, `isIRI`,
//!   `isBlank`, `isLiteral` and one
//! - the body is `bgp.N PATTERN ..` of N patterns, `join BODY BODY`, `union BODY BODY`, `filter E BODY`,
//!   or `optional BODY BODY E`
//! - the rest of the query is `name FIELD` for each name, `width.N`, `select.N` for each selected variable,
//!   `distinct`, and `asc E` or `desc E` for each key
//!
//! A token `|` parts groups for the reader and means nothing. The tokens are read from the last to
//! the first, so that the parts of a word are there when it comes.

use crate::cases::bytes;
use algebra_core::{Algebra, Key, Query};
use expr_eval::{CompareOp, Expr, Function, Sign};
use rdf_terms::{Boxed, Memory, Seq, Term, TextBuf, Triple};
use rows_core::{Spot, TriplePattern};
use std::alloc::{AllocError, AllocFailed, Global};

const STRING: &str = "http://www.w3.org/2001/XMLSchema#string";

const LANG_STRING: &str = "http://www.w3.org/1999/02/22-rdf-syntax-ns#langString";

/// Why a line has no answer.
#[derive(Debug, Drop)]
pub enum Fault {
    NoCase,
    Memory,
}

impl From<Memory> for Fault {
    fn from(_: Memory) -> Self {
        Fault::Memory
    }
}

impl From<AllocError> for Fault {
    fn from(_: AllocError) -> Self {
        Fault::Memory
    }
}

impl<T: Drop> From<AllocFailed<T>> for Fault {
    fn from(_: AllocFailed<T>) -> Self {
        Fault::Memory
    }
}

/// A query and the triples that it is asked over.
#[derive(Debug, Drop)]
pub struct Case {
    pub query: Query,
    pub triples: Vec<Triple>,
}

/// The items that were read, the first of the line last.
#[derive(Drop)]
struct Stack {
    alloc: Global,
    fields: Vec<String>,
    spots: Vec<Spot>,
    exprs: Vec<Expr>,
    patterns: Vec<TriplePattern>,
    bodies: Vec<Algebra>,
    triples: Vec<Triple>,
    names: Vec<TextBuf>,
    select: Vec<u16>,
    keys: Vec<Key>,
    width: u16,
    distinct: bool,
}

fn pop<T: Drop>(items: &mut Vec<T>) -> Result<T, Fault> {
    match items.pop() {
        Some(item) => Ok(item),
        None => Err(Fault::NoCase),
    }
}

fn pop_all<T: Drop>(alloc: Global, items: &mut Vec<T>, count: u16) -> Result<Vec<T>, Fault> {
    let mut all = Vec::new(alloc);
    for _item in 0..count {
        all.push(pop(items)?)?;
    }
    Ok(all)
}

fn number(text: &str) -> Result<u16, Fault> {
    match text.parse::<u16>() {
        Ok(number) => Ok(number),
        Err(_) => Err(Fault::NoCase),
    }
}

impl Stack {
    fn new(alloc: Global) -> Stack {
        Stack {
            alloc,
            fields: Vec::new(alloc),
            spots: Vec::new(alloc),
            exprs: Vec::new(alloc),
            patterns: Vec::new(alloc),
            bodies: Vec::new(alloc),
            triples: Vec::new(alloc),
            names: Vec::new(alloc),
            select: Vec::new(alloc),
            keys: Vec::new(alloc),
            width: 0,
            distinct: false,
        }
    }

    fn text(&self, text: &str) -> Result<TextBuf, Fault> {
        Ok(TextBuf::from_str(self.alloc, text)?)
    }

    fn field(&mut self) -> Result<TextBuf, Fault> {
        let field = pop(&mut self.fields)?;
        self.text(field.as_str())
    }

    fn two_fields(&mut self) -> Result<(TextBuf, TextBuf), Fault> {
        let first = self.field()?;
        let second = self.field()?;
        Ok((first, second))
    }

    fn term(&mut self) -> Result<Term, Fault> {
        match pop(&mut self.spots)? {
            Spot::Term(term) => Ok(term),
            Spot::Var(_) => Err(Fault::NoCase),
        }
    }

    fn two_terms(&mut self) -> Result<(Term, Term), Fault> {
        let first = self.term()?;
        let second = self.term()?;
        Ok((first, second))
    }

    fn triple(&mut self) -> Result<Triple, Fault> {
        let (s, p) = self.two_terms()?;
        let o = self.term()?;
        Ok(Triple { s, p, o })
    }

    fn two_spots(&mut self) -> Result<(Spot, Spot), Fault> {
        let first = pop(&mut self.spots)?;
        let second = pop(&mut self.spots)?;
        Ok((first, second))
    }

    fn pattern(&mut self) -> Result<TriplePattern, Fault> {
        let (s, p) = self.two_spots()?;
        let o = pop(&mut self.spots)?;
        Ok(TriplePattern { s, p, o })
    }

    fn expr(&mut self) -> Result<Boxed<Expr>, Fault> {
        let expr = pop(&mut self.exprs)?;
        Ok(Boxed::new(self.alloc, expr)?)
    }

    fn two_exprs(&mut self) -> Result<(Boxed<Expr>, Boxed<Expr>), Fault> {
        let left = self.expr()?;
        let right = self.expr()?;
        Ok((left, right))
    }

    fn parts(&mut self, count: &str) -> Result<Seq<Expr>, Fault> {
        let count = number(count)?;
        let parts = pop_all(self.alloc, &mut self.exprs, count)?;
        Ok(Seq::from_vec(parts))
    }

    fn body(&mut self) -> Result<Boxed<Algebra>, Fault> {
        let body = pop(&mut self.bodies)?;
        Ok(Boxed::new(self.alloc, body)?)
    }

    fn two_bodies(&mut self) -> Result<(Boxed<Algebra>, Boxed<Algebra>), Fault> {
        let left = self.body()?;
        let right = self.body()?;
        Ok((left, right))
    }

    fn push_term(&mut self, term: Result<Term, Fault>) -> Result<(), Fault> {
        let term = term?;
        Ok(self.spots.push(Spot::Term(term))?)
    }

    fn push_expr(&mut self, expr: Result<Expr, Fault>) -> Result<(), Fault> {
        let expr = expr?;
        Ok(self.exprs.push(expr)?)
    }

    /// A token is a field, a term as it stands, a variable, or a word.
    fn read(&mut self, token: &str) -> Result<(), Fault> {
        if let Some(bytes) = bytes(self.alloc, token)? {
            return self.read_field(bytes);
        }
        if let Some(var) = token.strip_prefix('?') {
            self.read_spot(var)
        } else if let Some(var) = token.strip_prefix('$') {
            self.read_variable(var)
        } else if let Some(iri) = token.strip_prefix('<') {
            let term = self.iri(iri);
            self.push_term(term)
        } else if let Some(literal) = token.strip_prefix('"') {
            let term = self.literal(literal);
            self.push_term(term)
        } else {
            self.read_word(token)
        }
    }

    fn read_field(&mut self, bytes: Vec<u8>) -> Result<(), Fault> {
        match String::from_utf8(bytes).ok() {
            Some(field) => Ok(self.fields.push(field)?),
            None => Err(Fault::NoCase),
        }
    }

    fn read_spot(&mut self, var: &str) -> Result<(), Fault> {
        let var = number(var)?;
        Ok(self.spots.push(Spot::Var(var))?)
    }

    fn read_variable(&mut self, var: &str) -> Result<(), Fault> {
        let var = number(var)?;
        Ok(self.exprs.push(Expr::Var(var))?)
    }

    fn iri(&self, text: &str) -> Result<Term, Fault> {
        let iri = self.text(iri_of(text)?)?;
        Ok(Term::Iri(iri))
    }

    fn literal(&self, text: &str) -> Result<Term, Fault> {
        let Some((form, rest)) = text.rsplit_once('"') else {
            return Err(Fault::NoCase);
        };
        if rest.is_empty() {
            return self.typed(form, STRING);
        }
        if let Some(tag) = rest.strip_prefix('@') {
            return self.tagged(form, tag);
        }
        match rest.strip_prefix("^^") {
            Some(datatype) => self.of_datatype(form, datatype),
            None => Err(Fault::NoCase),
        }
    }

    fn typed(&self, form: &str, datatype: &str) -> Result<Term, Fault> {
        let form = self.text(form)?;
        let datatype = self.text(datatype)?;
        Ok(Term::literal(form, datatype, None))
    }

    fn tagged(&self, form: &str, tag: &str) -> Result<Term, Fault> {
        let form = self.text(form)?;
        let tag = self.text(tag)?;
        self.lang_string(form, tag)
    }

    fn lang_string(&self, form: TextBuf, tag: TextBuf) -> Result<Term, Fault> {
        let datatype = self.text(LANG_STRING)?;
        Ok(Term::literal(form, datatype, Some(tag)))
    }

    fn of_datatype(&self, form: &str, datatype: &str) -> Result<Term, Fault> {
        if let Some(name) = datatype.strip_prefix("xsd:") {
            let whole = format!(in self.alloc; "http://www.w3.org/2001/XMLSchema#{name}")?;
            return self.typed(form, whole.as_str());
        }
        match datatype.strip_prefix('<') {
            Some(iri) => self.typed(form, iri_of(iri)?),
            None => Err(Fault::NoCase),
        }
    }

    /// A word takes its parts, which stand to its right.
    fn read_word(&mut self, token: &str) -> Result<(), Fault> {
        let (word, argument) = match token.split_once('.') {
            Some(parts) => parts,
            None => (token, ""),
        };
        match word {
            "|" => Ok(()),
            "name" => self.read_name(),
            "width" => self.read_width(argument),
            "select" => self.read_selected(argument),
            "distinct" => self.read_distinct(),
            "asc" => self.read_key(false),
            "desc" => self.read_key(true),
            "triple" => self.read_triple(),
            "pattern" => self.read_pattern(),
            "bgp" => self.read_patterns(argument),
            "join" => self.read_join(),
            "union" => self.read_union(),
            "filter" => self.read_filter(),
            "optional" => self.read_optional(),
            "iri" => self.read_iri(),
            "blank" => self.read_blank(),
            "literal" => self.read_literal(),
            _ => self.read_expr(word, argument),
        }
    }

    fn read_name(&mut self) -> Result<(), Fault> {
        let name = self.field()?;
        Ok(self.names.push(name)?)
    }

    fn read_width(&mut self, width: &str) -> Result<(), Fault> {
        self.width = number(width)?;
        Ok(())
    }

    fn read_selected(&mut self, var: &str) -> Result<(), Fault> {
        let var = number(var)?;
        Ok(self.select.push(var)?)
    }

    fn read_distinct(&mut self) -> Result<(), Fault> {
        self.distinct = true;
        Ok(())
    }

    fn read_key(&mut self, descending: bool) -> Result<(), Fault> {
        let expr = pop(&mut self.exprs)?;
        Ok(self.keys.push(Key { expr, descending })?)
    }

    fn read_triple(&mut self) -> Result<(), Fault> {
        let triple = self.triple()?;
        Ok(self.triples.push(triple)?)
    }

    fn read_pattern(&mut self) -> Result<(), Fault> {
        let pattern = self.pattern()?;
        Ok(self.patterns.push(pattern)?)
    }

    fn read_patterns(&mut self, count: &str) -> Result<(), Fault> {
        let count = number(count)?;
        let patterns = pop_all(self.alloc, &mut self.patterns, count)?;
        Ok(self.bodies.push(Algebra::Bgp(Seq::from_vec(patterns)))?)
    }

    fn read_join(&mut self) -> Result<(), Fault> {
        let (left, right) = self.two_bodies()?;
        Ok(self.bodies.push(Algebra::Join(left, right))?)
    }

    fn read_union(&mut self) -> Result<(), Fault> {
        let (left, right) = self.two_bodies()?;
        Ok(self.bodies.push(Algebra::Union(left, right))?)
    }

    fn read_filter(&mut self) -> Result<(), Fault> {
        let condition = pop(&mut self.exprs)?;
        let body = self.body()?;
        Ok(self.bodies.push(Algebra::Filter(condition, body))?)
    }

    fn read_optional(&mut self) -> Result<(), Fault> {
        let (left, right) = self.two_bodies()?;
        let condition = pop(&mut self.exprs)?;
        Ok(self.bodies.push(Algebra::LeftJoin(left, right, condition))?)
    }

    fn read_iri(&mut self) -> Result<(), Fault> {
        let iri = self.field()?;
        self.push_term(Ok(Term::Iri(iri)))
    }

    fn read_blank(&mut self) -> Result<(), Fault> {
        let (doc, number) = self.two_fields()?;
        match number.as_str().parse::<u64>() {
            Ok(n) => self.push_term(Ok(Term::Blank { doc, n })),
            Err(_) => Err(Fault::NoCase),
        }
    }

    fn read_literal(&mut self) -> Result<(), Fault> {
        let (form, datatype) = self.two_fields()?;
        let tag = self.field()?;
        self.push_term(Ok(Term::literal(form, datatype, tag_of(tag))))
    }

    fn read_expr(&mut self, word: &str, argument: &str) -> Result<(), Fault> {
        let expr = self.expr_of(word, argument);
        self.push_expr(expr)
    }

    fn expr_of(&mut self, word: &str, argument: &str) -> Result<Expr, Fault> {
        if let Some(op) = compare_op(word) {
            return self.compare(op);
        }
        if let Some(function) = function_of(word) {
            return self.call(function);
        }
        match word {
            "const" => self.constant(),
            "or" => self.any(argument),
            "and" => self.all(argument),
            "not" => self.not(),
            "sum" => self.sum(argument),
            "plus" => self.signed(Sign::Plus),
            "minus" => self.signed(Sign::Minus),
            "bound" => bound(argument),
            "same" => self.same_term(),
            _ => Err(Fault::NoCase),
        }
    }

    fn compare(&mut self, op: CompareOp) -> Result<Expr, Fault> {
        let (left, right) = self.two_exprs()?;
        Ok(Expr::Compare { op, left, right })
    }

    fn call(&mut self, function: Function) -> Result<Expr, Fault> {
        let of = self.expr()?;
        Ok(Expr::Call { function, of })
    }

    fn constant(&mut self) -> Result<Expr, Fault> {
        let term = self.term()?;
        Ok(Expr::Constant(term))
    }

    fn any(&mut self, count: &str) -> Result<Expr, Fault> {
        let parts = self.parts(count)?;
        Ok(Expr::Or(parts))
    }

    fn all(&mut self, count: &str) -> Result<Expr, Fault> {
        let parts = self.parts(count)?;
        Ok(Expr::And(parts))
    }

    fn not(&mut self) -> Result<Expr, Fault> {
        let of = self.expr()?;
        Ok(Expr::Not(of))
    }

    fn same_term(&mut self) -> Result<Expr, Fault> {
        let (left, right) = self.two_exprs()?;
        Ok(Expr::SameTerm { left, right })
    }

    fn signed(&mut self, sign: Sign) -> Result<Expr, Fault> {
        let of = self.expr()?;
        Ok(Expr::Signed { sign, of })
    }

    fn sum(&mut self, signs: &str) -> Result<Expr, Fault> {
        let first = self.expr()?;
        let rest = self.operands(signs)?;
        Ok(Expr::Sum { first, rest })
    }

    fn operands(&mut self, signs: &str) -> Result<Seq<(Sign, Expr)>, Fault> {
        let mut operands = Seq::new(self.alloc);
        for sign in signs.chars() {
            operands.push(self.operand(sign)?)?;
        }
        Ok(operands)
    }

    fn operand(&mut self, sign: char) -> Result<(Sign, Expr), Fault> {
        let sign = sign_of(sign)?;
        let operand = pop(&mut self.exprs)?;
        Ok((sign, operand))
    }

    /// Reads the line, and gives the query's body.
    fn read_all(&mut self, line: &str) -> Result<Algebra, Fault> {
        for token in line.rsplit(' ') {
            self.read(token)?;
        }
        pop(&mut self.bodies)
    }

    fn into_case(self, body: Algebra) -> Case {
        let query = Query {
            names: Seq::from_vec(reversed(self.names)),
            width: self.width,
            select: Seq::from_vec(reversed(self.select)),
            distinct: self.distinct,
            body,
            order: Seq::from_vec(reversed(self.keys)),
        };
        Case {
            query,
            triples: reversed(self.triples),
        }
    }
}

fn reversed<T: Drop>(items: Vec<T>) -> Vec<T> {
    let mut items = items;
    items.reverse();
    items
}

fn bound(var: &str) -> Result<Expr, Fault> {
    let var = number(var)?;
    Ok(Expr::Bound(var))
}

fn tag_of(tag: TextBuf) -> Option<TextBuf> {
    if tag.as_str().is_empty() {
        None
    } else {
        Some(tag)
    }
}

fn iri_of(text: &str) -> Result<&str, Fault> {
    match text.strip_suffix('>') {
        Some(iri) => Ok(iri),
        None => Err(Fault::NoCase),
    }
}

fn sign_of(sign: char) -> Result<Sign, Fault> {
    match sign {
        '+' => Ok(Sign::Plus),
        '-' => Ok(Sign::Minus),
        _ => Err(Fault::NoCase),
    }
}

fn compare_op(word: &str) -> Option<CompareOp> {
    match word {
        "eq" => Some(CompareOp::Equal),
        "ne" => Some(CompareOp::NotEqual),
        "lt" => Some(CompareOp::Less),
        "le" => Some(CompareOp::LessEqual),
        "gt" => Some(CompareOp::Greater),
        "ge" => Some(CompareOp::GreaterEqual),
        _ => None,
    }
}

fn function_of(word: &str) -> Option<Function> {
    match word {
        "str" => Some(Function::Str),
        "lang" => Some(Function::Lang),
        "datatype" => Some(Function::Datatype),
        "isIRI" => Some(Function::IsIri),
        "isBlank" => Some(Function::IsBlank),
        "isLiteral" => Some(Function::IsLiteral),
        _ => None,
    }
}

/// Reads a case.
pub fn read_case(alloc: Global, line: &str) -> Result<Case, Fault> {
    let mut stack = Stack::new(alloc);
    match stack.read_all(line) {
        Ok(body) => Ok(stack.into_case(body)),
        Err(fault) => Err(fault),
    }
}
