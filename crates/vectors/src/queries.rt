use crate::cases::{no_case, plain, shown, texts};
use algebra_core::{Algebra, Key, Query};
use expr_eval::{CompareOp, Expr, Function, Sign};
use rdf_terms::{Memory, Term, TextBuf, write_term};
use rows_core::{Spot, TriplePattern};
use sparql_parser::{QueryFault, read_query};
use std::alloc::Global;

/// A query, or its first fault. A case is one field. The query is in the words of the module
/// `algebra_case`, but that a term is one field, and that in a sum each sign stands before its operand
/// and `end` behind them.
pub fn answer(alloc: Global, line: &str) -> Result<String, Memory> {
    let Some(fields) = texts(alloc, line)? else {
        return no_case(alloc);
    };
    match fields.as_slice() {
        [text] => answer_to(alloc, text.as_str()),
        _ => no_case(alloc),
    }
}

fn answer_to(alloc: Global, text: &str) -> Result<String, Memory> {
    match read_query(alloc, text) {
        Ok(query) => query_text(alloc, &query),
        Err(QueryFault::Syntax { at }) => Ok(format!(in alloc; "syntax {at}")?),
        Err(QueryFault::Unsupported { at }) => Ok(format!(in alloc; "unsupported {at}")?),
        Err(QueryFault::Deep { at }) => Ok(format!(in alloc; "deep {at}")?),
        Err(QueryFault::LongQuery) => plain(alloc, "long 65536"),
        Err(QueryFault::Memory) => Err(Memory),
    }
}

fn query_text(alloc: Global, query: &Query) -> Result<String, Memory> {
    let mut out = String::new(alloc);
    write_query(alloc, &mut out, query)?;
    Ok(out)
}

fn write_query(alloc: Global, out: &mut String, query: &Query) -> Result<(), Memory> {
    write_names(alloc, out, query.names.as_slice())?;
    let width = query.width;
    word(out, format!(in alloc; "width.{width}")?.as_str())?;
    write_selection(alloc, out, query)?;
    write_algebra(alloc, out, &query.body)?;
    write_keys(alloc, out, query.order.as_slice())
}

fn write_names(alloc: Global, out: &mut String, names: &[TextBuf]) -> Result<(), Memory> {
    for name in names {
        word(out, "name")?;
        word(out, shown(alloc, name.as_str())?.as_str())?;
    }
    Ok(())
}

fn write_selection(alloc: Global, out: &mut String, query: &Query) -> Result<(), Memory> {
    for n in query.select.as_slice() {
        word(out, format!(in alloc; "select.{n}")?.as_str())?;
    }
    if query.distinct {
        word(out, "distinct")?;
    }
    Ok(())
}

fn write_keys(alloc: Global, out: &mut String, keys: &[Key]) -> Result<(), Memory> {
    for key in keys {
        word(out, if key.descending { "desc" } else { "asc" })?;
        write_expr(alloc, out, &key.expr)?;
    }
    Ok(())
}

fn word(out: &mut String, word: &str) -> Result<(), Memory> {
    if !out.is_empty() {
        out.push(' ')?;
    }
    out.push_str(word)?;
    Ok(())
}

fn write_term_to(alloc: Global, out: &mut String, term: &Term) -> Result<(), Memory> {
    let form = write_term(alloc, term)?;
    word(out, shown(alloc, form.as_str())?.as_str())
}

fn write_spot(alloc: Global, out: &mut String, spot: &Spot) -> Result<(), Memory> {
    match spot {
        Spot::Term(term) => write_term_to(alloc, out, term),
        Spot::Var(n) => word(out, format!(in alloc; "?{n}")?.as_str()),
    }
}

fn write_patterns(
    alloc: Global,
    out: &mut String,
    patterns: &[TriplePattern],
) -> Result<(), Memory> {
    let count = patterns.len();
    word(out, format!(in alloc; "bgp.{count}")?.as_str())?;
    for pattern in patterns {
        word(out, "pattern")?;
        write_spot(alloc, out, &pattern.s)?;
        write_spot(alloc, out, &pattern.p)?;
        write_spot(alloc, out, &pattern.o)?;
    }
    Ok(())
}

fn write_algebra(alloc: Global, out: &mut String, algebra: &Algebra) -> Result<(), Memory> {
    match algebra {
        Algebra::Bgp(patterns) => write_patterns(alloc, out, patterns.as_slice()),
        Algebra::Join(a, b) => {
            word(out, "join")?;
            write_algebra(alloc, out, a.get())?;
            write_algebra(alloc, out, b.get())
        }
        Algebra::Union(a, b) => {
            word(out, "union")?;
            write_algebra(alloc, out, a.get())?;
            write_algebra(alloc, out, b.get())
        }
        Algebra::Filter(expr, a) => {
            word(out, "filter")?;
            write_expr(alloc, out, expr)?;
            write_algebra(alloc, out, a.get())
        }
        Algebra::LeftJoin(a, b, expr) => {
            word(out, "optional")?;
            write_algebra(alloc, out, a.get())?;
            write_algebra(alloc, out, b.get())?;
            write_expr(alloc, out, expr)
        }
    }
}

fn comparison(op: CompareOp) -> &'static str {
    match op {
        CompareOp::Equal => "eq",
        CompareOp::NotEqual => "ne",
        CompareOp::Less => "lt",
        CompareOp::LessEqual => "le",
        CompareOp::Greater => "gt",
        CompareOp::GreaterEqual => "ge",
    }
}

fn function_name(function: Function) -> &'static str {
    match function {
        Function::Str => "str",
        Function::Lang => "lang",
        Function::Datatype => "datatype",
        Function::IsIri => "isIRI",
        Function::IsBlank => "isBlank",
        Function::IsLiteral => "isLiteral",
    }
}

fn sign_name(sign: Sign) -> &'static str {
    match sign {
        Sign::Plus => "plus",
        Sign::Minus => "minus",
    }
}

#[cycle(expressions)]
fn write_expr(alloc: Global, out: &mut String, expr: &Expr) -> Result<(), Memory> {
    match expr {
        Expr::Var(n) => word(out, format!(in alloc; "${n}")?.as_str()),
        Expr::Constant(term) => {
            word(out, "const")?;
            write_term_to(alloc, out, term)
        }
        Expr::Or(parts) => write_all(alloc, out, "or", parts.as_slice()),
        Expr::And(parts) => write_all(alloc, out, "and", parts.as_slice()),
        Expr::Not(of) => write_one(alloc, out, "not", of.get()),
        Expr::Compare { op, left, right } => {
            write_one(alloc, out, comparison(*op), left.get())?;
            write_expr(alloc, out, right.get())
        }
        Expr::Sum { first, rest } => {
            write_one(alloc, out, "sum", first.get())?;
            write_operands(alloc, out, rest.as_slice())
        }
        Expr::Signed { sign, of } => write_one(alloc, out, sign_name(*sign), of.get()),
        Expr::Bound(n) => word(out, format!(in alloc; "bound.{n}")?.as_str()),
        Expr::Call { function, of } => write_one(alloc, out, function_name(*function), of.get()),
        Expr::SameTerm { left, right } => {
            write_one(alloc, out, "same", left.get())?;
            write_expr(alloc, out, right.get())
        }
    }
}

#[cycle(expressions)]
fn write_one(alloc: Global, out: &mut String, name: &str, of: &Expr) -> Result<(), Memory> {
    word(out, name)?;
    write_expr(alloc, out, of)
}

#[cycle(expressions)]
fn write_all(alloc: Global, out: &mut String, name: &str, parts: &[Expr]) -> Result<(), Memory> {
    let count = parts.len();
    word(out, format!(in alloc; "{name}.{count}")?.as_str())?;
    for part in parts {
        write_expr(alloc, out, part)?;
    }
    Ok(())
}

#[cycle(expressions)]
fn write_operands(alloc: Global, out: &mut String, rest: &[(Sign, Expr)]) -> Result<(), Memory> {
    for operand in rest {
        word(out, sign_name(operand.0))?;
        write_expr(alloc, out, &operand.1)?;
    }
    word(out, "end")
}
