use expr_eval::{CompareOp, Expr, Function};
use rdf_terms::{Boxed, Memory, Seq, Term, TextBuf};
use std::alloc::Global;

fn literal(alloc: Global, lexical: &str, datatype: &str) -> Result<Expr, Memory> {
    let lexical = TextBuf::from_str(alloc, lexical)?;
    let datatype = TextBuf::from_str(alloc, datatype)?;
    Ok(Expr::Constant(Term::literal(lexical, datatype, None)))
}

fn compare(alloc: Global, op: CompareOp, left: Expr, right: Expr) -> Result<Expr, Memory> {
    let left = Boxed::new(alloc, left)?;
    let right = Boxed::new(alloc, right)?;
    Ok(Expr::Compare { op, left, right })
}

fn language(alloc: Global, var: u16) -> Result<Expr, Memory> {
    let of = Boxed::new(alloc, Expr::Var(var))?;
    Ok(Expr::Call {
        function: Function::Lang,
        of,
    })
}

fn is_more_than_one(alloc: Global, var: u16) -> Result<Expr, Memory> {
    let one = literal(alloc, "1", "http://www.w3.org/2001/XMLSchema#integer")?;
    compare(alloc, CompareOp::Greater, Expr::Var(var), one)
}

fn is_english(alloc: Global, var: u16) -> Result<Expr, Memory> {
    let english = literal(alloc, "en", "http://www.w3.org/2001/XMLSchema#string")?;
    let language = language(alloc, var)?;
    compare(alloc, CompareOp::Equal, language, english)
}

/// `?n > 1 && lang(?l) = "en"`, where `?n` is variable 0 and `?l` variable 1.
pub(crate) fn condition(alloc: Global) -> Result<Expr, Memory> {
    let mut parts = Seq::new(alloc);
    parts.push(is_more_than_one(alloc, 0)?)?;
    parts.push(is_english(alloc, 1)?)?;
    Ok(Expr::And(parts))
}
