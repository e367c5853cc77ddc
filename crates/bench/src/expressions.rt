//! Makes rows of two variables and evaluates `?n > 1 && lang(?l) = "en"` over them: how many rows hold. The first word says how:
//! `rows` makes the rows alone, `truth` asks for the truth of the expression, `value` for its term and the term's truth. The
//! second word is the number of rows.
mod condition;
mod row;

use crate::expressions::condition::condition;
use crate::expressions::row::{Row, rows};
use crate::fault::Fault;
use expr_eval::{Evaluated, Expr, ebv, evaluate, evaluate_truth};
use rdf_terms::Memory;
use std::alloc::Global;

fn holds_by_truth(alloc: Global, expr: &Expr, row: &Row) -> Result<bool, Memory> {
    let truth = evaluate_truth(alloc, expr, row)?;
    Ok(truth.unwrap_or(false))
}

fn holds_by_value(alloc: Global, expr: &Expr, row: &Row) -> Result<bool, Memory> {
    let truth = match evaluate(alloc, expr, row)? {
        Evaluated::Value(term) => ebv(&term),
        Evaluated::TypeError => None,
    };
    Ok(truth.unwrap_or(false))
}

fn count_by_truth(alloc: Global, expr: &Expr, rows: &[Row]) -> Result<usize, Memory> {
    let mut count = 0usize;
    for row in rows {
        let holds = holds_by_truth(alloc, expr, row)?;
        count = count.saturating_add(usize::from(holds));
    }
    Ok(count)
}

fn count_by_value(alloc: Global, expr: &Expr, rows: &[Row]) -> Result<usize, Memory> {
    let mut count = 0usize;
    for row in rows {
        let holds = holds_by_value(alloc, expr, row)?;
        count = count.saturating_add(usize::from(holds));
    }
    Ok(count)
}

fn count_by(alloc: Global, way: &str, rows: &[Row]) -> Result<usize, Fault> {
    let expr = condition(alloc)?;
    match way {
        "truth" => Ok(count_by_truth(alloc, &expr, rows)?),
        "value" => Ok(count_by_value(alloc, &expr, rows)?),
        _ => Err(Fault::Words),
    }
}

fn count(alloc: Global, way: &str, number: u32) -> Result<usize, Fault> {
    let rows = rows(alloc, number)?;
    match way {
        "rows" => Ok(rows.len()),
        _ => count_by(alloc, way, rows.as_slice()),
    }
}

pub(crate) fn answer(alloc: Global, words: &[String]) -> Result<String, Fault> {
    let [way, number] = words else {
        return Err(Fault::Words);
    };
    let Ok(number) = number.parse::<u32>() else {
        return Err(Fault::Words);
    };
    let count = count(alloc, way.as_str(), number)?;
    Ok(format!(in alloc; "{count}")?)
}
