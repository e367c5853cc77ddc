use crate::cases::{bytes, no_case, plain, shown};
use expr_eval::{CompareOp, Env, Evaluated, Expr, Function, Sign, evaluate, evaluate_truth};
use rdf_terms::{Boxed, Memory, Seq, Term, TextBuf, write_term};
use std::alloc::Global;

const LANG_STRING: &str = "http://www.w3.org/1999/02/22-rdf-syntax-ns#langString";

/// Terms, of which variable n has the n-th.
#[derive(Drop)]
struct Bound {
    terms: Vec<Term>,
}

impl Env for Bound {
    ghost use Rattle.std.specs.Prelude.{slice_get};

    ghost bindings = { λ bound var. slice_get bound.terms.items var };

    fn get(&self, var: u16) -> Option<&Term> {
        self.terms.get(usize::from(var))
    }
}

/// What the words of a case have made so far: each word takes its operands from the ends of these lists.
#[derive(Drop)]
struct Stacks {
    texts: Vec<TextBuf>,
    exprs: Vec<Expr>,
    bound: Bound,
}

type Made = Result<Option<Expr>, Memory>;

fn constant(term: Option<Term>) -> Made {
    match term {
        Some(term) => Ok(Some(Expr::Constant(term))),
        None => Ok(None),
    }
}

fn lang_string(alloc: Global, lexical: TextBuf, tag: TextBuf) -> Made {
    let datatype = TextBuf::from_str(alloc, LANG_STRING)?;
    constant(Some(Term::literal(lexical, datatype, Some(tag))))
}

fn sign_of(byte: u8) -> Sign {
    if byte == b'-' {
        Sign::Minus
    } else {
        Sign::Plus
    }
}

/// Operands, each with the sign before it.
fn signed_operands(
    alloc: Global,
    signs: &str,
    operands: Vec<Expr>,
) -> Result<Seq<(Sign, Expr)>, Memory> {
    let mut rest = Seq::new(alloc);
    for (sign, operand) in signs.bytes().zip(operands) {
        rest.push((sign_of(sign), operand))?;
    }
    Ok(rest)
}

impl Stacks {
    fn new(alloc: Global) -> Stacks {
        Stacks {
            texts: Vec::new(alloc),
            exprs: Vec::new(alloc),
            bound: Bound {
                terms: Vec::new(alloc),
            },
        }
    }

    fn iri(&mut self) -> Option<Term> {
        Some(Term::Iri(self.texts.pop()?))
    }

    fn blank(&mut self, number: &str) -> Option<Term> {
        let n = number.parse::<u64>().ok()?;
        let doc = self.texts.pop()?;
        Some(Term::Blank { doc, n })
    }

    fn literal(&mut self) -> Option<Term> {
        let datatype = self.texts.pop()?;
        let lexical = self.texts.pop()?;
        Some(Term::literal(lexical, datatype, None))
    }

    fn typed(&mut self, alloc: Global, name: &str) -> Made {
        let datatype = format!(in alloc; "http://www.w3.org/2001/XMLSchema#{name}")?;
        let datatype = TextBuf::from_string(datatype)?;
        self.texts.push(datatype)?;
        constant(self.literal())
    }

    fn tagged(&mut self, alloc: Global) -> Made {
        match (self.texts.pop(), self.texts.pop()) {
            (Some(tag), Some(lexical)) => lang_string(alloc, lexical, tag),
            _ => Ok(None),
        }
    }

    fn boxed(&mut self, alloc: Global) -> Result<Option<Boxed<Expr>>, Memory> {
        match self.exprs.pop() {
            Some(expr) => Ok(Some(Boxed::new(alloc, expr)?)),
            None => Ok(None),
        }
    }

    fn pair(&mut self, alloc: Global) -> Result<Option<(Boxed<Expr>, Boxed<Expr>)>, Memory> {
        let right = self.boxed(alloc)?;
        let left = self.boxed(alloc)?;
        Ok(left.zip(right))
    }

    fn compare(&mut self, alloc: Global, op: CompareOp) -> Made {
        match self.pair(alloc)? {
            Some((left, right)) => Ok(Some(Expr::Compare { op, left, right })),
            None => Ok(None),
        }
    }

    fn same_term(&mut self, alloc: Global) -> Made {
        match self.pair(alloc)? {
            Some((left, right)) => Ok(Some(Expr::SameTerm { left, right })),
            None => Ok(None),
        }
    }

    fn not(&mut self, alloc: Global) -> Made {
        match self.boxed(alloc)? {
            Some(of) => Ok(Some(Expr::Not(of))),
            None => Ok(None),
        }
    }

    fn call(&mut self, alloc: Global, function: Function) -> Made {
        match self.boxed(alloc)? {
            Some(of) => Ok(Some(Expr::Call { function, of })),
            None => Ok(None),
        }
    }

    fn signed(&mut self, alloc: Global, sign: Sign) -> Made {
        match self.boxed(alloc)? {
            Some(of) => Ok(Some(Expr::Signed { sign, of })),
            None => Ok(None),
        }
    }

    /// The last so many expressions, in their order.
    fn last(&mut self, count: usize) -> Result<Option<Seq<Expr>>, Memory> {
        let Some(at) = self.exprs.len().checked_sub(count) else {
            return Ok(None);
        };
        let last = self.exprs.split_off(at)?;
        Ok(Some(Seq::from_vec(last)))
    }

    fn any(&mut self, count: &str) -> Made {
        let Ok(count) = count.parse::<usize>() else {
            return Ok(None);
        };
        match self.last(count)? {
            Some(parts) => Ok(Some(Expr::Or(parts))),
            None => Ok(None),
        }
    }

    fn all(&mut self, count: &str) -> Made {
        let Ok(count) = count.parse::<usize>() else {
            return Ok(None);
        };
        match self.last(count)? {
            Some(parts) => Ok(Some(Expr::And(parts))),
            None => Ok(None),
        }
    }

    fn sum(&mut self, alloc: Global, signs: &str) -> Made {
        let Some(at) = self.exprs.len().checked_sub(signs.len()) else {
            return Ok(None);
        };
        let operands = self.exprs.split_off(at)?;
        let rest = signed_operands(alloc, signs, operands)?;
        match self.boxed(alloc)? {
            Some(first) => Ok(Some(Expr::Sum { first, rest })),
            None => Ok(None),
        }
    }

    fn named(&mut self, alloc: Global, word: &str) -> Made {
        match word {
            "iri" => constant(self.iri()),
            "literal" => constant(self.literal()),
            "tagged" => self.tagged(alloc),
            "not" => self.not(alloc),
            "eq" => self.compare(alloc, CompareOp::Equal),
            "ne" => self.compare(alloc, CompareOp::NotEqual),
            "lt" => self.compare(alloc, CompareOp::Less),
            "le" => self.compare(alloc, CompareOp::LessEqual),
            "gt" => self.compare(alloc, CompareOp::Greater),
            "ge" => self.compare(alloc, CompareOp::GreaterEqual),
            "plus" => self.signed(alloc, Sign::Plus),
            "minus" => self.signed(alloc, Sign::Minus),
            "str" => self.call(alloc, Function::Str),
            "lang" => self.call(alloc, Function::Lang),
            "datatype" => self.call(alloc, Function::Datatype),
            "isIRI" => self.call(alloc, Function::IsIri),
            "isBlank" => self.call(alloc, Function::IsBlank),
            "isLiteral" => self.call(alloc, Function::IsLiteral),
            "sameTerm" => self.same_term(alloc),
            _ => Ok(None),
        }
    }

    fn with_argument(&mut self, alloc: Global, word: &str, argument: &str) -> Made {
        match word {
            "var" => Ok(argument.parse::<u16>().ok().map(Expr::Var)),
            "bound" => Ok(argument.parse::<u16>().ok().map(Expr::Bound)),
            "blank" => constant(self.blank(argument)),
            "xsd" => self.typed(alloc, argument),
            "or" => self.any(argument),
            "and" => self.all(argument),
            "sum" => self.sum(alloc, argument),
            _ => Ok(None),
        }
    }

    /// Binds the next variable to the last expression, which is a constant.
    fn bind(&mut self) -> Result<bool, Memory> {
        match self.exprs.pop() {
            Some(Expr::Constant(term)) => {
                self.bound.terms.push(term)?;
                Ok(true)
            }
            _ => Ok(false),
        }
    }

    fn field(&mut self, field: Vec<u8>) -> Result<bool, Memory> {
        match String::from_utf8(field) {
            Ok(text) => {
                self.texts.push(TextBuf::from_string(text)?)?;
                Ok(true)
            }
            Err(_) => Ok(false),
        }
    }

    fn expr_of(&mut self, alloc: Global, word: &str) -> Made {
        match word.split_once(':') {
            Some((word, argument)) => self.with_argument(alloc, word, argument),
            None => self.named(alloc, word),
        }
    }

    fn push(&mut self, made: Made) -> Result<bool, Memory> {
        match made? {
            Some(expr) => {
                self.exprs.push(expr)?;
                Ok(true)
            }
            None => Ok(false),
        }
    }

    fn take(&mut self, alloc: Global, word: &str) -> Result<bool, Memory> {
        if word == "bind" {
            return self.bind();
        }
        if let Some(field) = bytes(alloc, word)? {
            return self.field(field);
        }
        let made = self.expr_of(alloc, word);
        self.push(made)
    }

    /// Whether each word of the line was taken.
    fn take_all(&mut self, alloc: Global, line: &str) -> Result<bool, Memory> {
        for word in line.split(' ') {
            if !self.take(alloc, word)? {
                return Ok(false);
            }
        }
        Ok(true)
    }
}

fn value_text(alloc: Global, value: Result<Evaluated, Memory>) -> Result<String, Memory> {
    match value? {
        Evaluated::Value(term) => shown(alloc, write_term(alloc, &term)?.as_str()),
        Evaluated::TypeError => plain(alloc, "error"),
    }
}

fn truth_text(truth: Option<bool>) -> &'static str {
    match truth {
        Some(true) => "true",
        Some(false) => "false",
        None => "error",
    }
}

fn evaluated_text(alloc: Global, expr: &Expr, bound: &Bound) -> Result<String, Memory> {
    let value = value_text(alloc, evaluate(alloc, expr, bound))?;
    let truth = truth_text(evaluate_truth(alloc, expr, bound)?);
    Ok(format!(in alloc; "{value} {truth}")?)
}

/// The value of an expression and its truth. A case has the expression's parts in the order of a stack: operands before
/// what takes them. A field is a text; `iri`, `literal` (form and datatype), `xsd:NAME`, `tagged` and `blank:N` make
/// constants of texts, and `bind` makes the last one the term of the next variable.
pub fn answer(alloc: Global, line: &str) -> Result<String, Memory> {
    let mut stacks = Stacks::new(alloc);
    if !stacks.take_all(alloc, line)? {
        return no_case(alloc);
    }
    match stacks.exprs.as_slice() {
        [expr] => evaluated_text(alloc, expr, &stacks.bound),
        _ => no_case(alloc),
    }
}
