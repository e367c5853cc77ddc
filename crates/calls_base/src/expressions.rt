//! Calls of `expr_eval`.
use expr_eval::{CompareOp, Env, Evaluated, Expr, Sign, equal, evaluate, evaluate_truth, order};
use rdf_terms::{Boxed, Seq, Term, TextBuf};
use std::alloc::Global;
use std::process::Abort;

const INTEGER: &str = "http://www.w3.org/2001/XMLSchema#integer";

const DECIMAL: &str = "http://www.w3.org/2001/XMLSchema#decimal";

const STRING: &str = "http://www.w3.org/2001/XMLSchema#string";

/// One variable, 0, which is bound.
#[derive(Drop)]
struct One {
    term: Term,
}

impl Env for One {
    ghost use Rattle.std.specs.Prelude.{Some, None, cond, ◌==◌};

    ghost bindings = { λ one var. cond (var == 0) (Some one.term) None };

    fn get(&self, var: u16) -> Option<&Term> {
        if var == 0 { Some(&self.term) } else { None }
    }
}

fn text(alloc: Global, rt: &impl Abort, of: &str) -> TextBuf {
    TextBuf::from_str(alloc, of).expect(rt, "memory")
}

fn literal(alloc: Global, rt: &impl Abort, lexical: &str, datatype: &str) -> Term {
    let lexical = text(alloc, rt, lexical);
    let datatype = text(alloc, rt, datatype);
    Term::literal(lexical, datatype, None)
}

// The integer 7, as the term of the variable 0.
fn seven(alloc: Global, rt: &impl Abort) -> One {
    One {
        term: literal(alloc, rt, "7", INTEGER),
    }
}

fn boxed(alloc: Global, rt: &impl Abort, expr: Expr) -> Boxed<Expr> {
    Boxed::new(alloc, expr).expect(rt, "memory")
}

fn constant(alloc: Global, rt: &impl Abort, lexical: &str, datatype: &str) -> Boxed<Expr> {
    let term = literal(alloc, rt, lexical, datatype);
    boxed(alloc, rt, Expr::Constant(term))
}

fn plus_half(alloc: Global, rt: &impl Abort) -> Seq<(Sign, Expr)> {
    let mut rest = Seq::new(alloc);
    let half = literal(alloc, rt, "0.50", DECIMAL);
    rest.push((Sign::Plus, Expr::Constant(half)))
        .expect(rt, "memory");
    rest
}

// `?0 + 0.50`.
fn sum(alloc: Global, rt: &impl Abort) -> Expr {
    let first = boxed(alloc, rt, Expr::Var(0));
    let rest = plus_half(alloc, rt);
    Expr::Sum { first, rest }
}

fn copied_sum(alloc: Global, rt: &impl Abort) -> Expr {
    let sum = sum(alloc, rt);
    sum.copy(alloc).expect(rt, "memory")
}

fn has_form(value: &Evaluated, lexical: &str, datatype: &str) -> bool {
    match value {
        Evaluated::Value(
            Term::Literal {
                lexical: form,
                datatype: of,
                ..
            },
        ) => form.as_str() == lexical && of.as_str() == datatype,
        _ => false,
    }
}

fn sum_is_exact(alloc: Global, rt: &impl Abort) -> bool {
    let sum = copied_sum(alloc, rt);
    let env = seven(alloc, rt);
    let value = evaluate(alloc, &sum, &env).expect(rt, "memory");
    has_form(&value, "7.5", DECIMAL)
}

#[test]
fn a_sum_of_an_integer_and_a_decimal_is_exact(rt: HostRuntime) {
    assert!(rt; sum_is_exact(rt.alloc(), &rt));
}

// `1 < right`.
fn one_is_less(alloc: Global, rt: &impl Abort, right: &str, datatype: &str) -> Expr {
    let left = constant(alloc, rt, "1", INTEGER);
    let right = constant(alloc, rt, right, datatype);
    let op = CompareOp::Less;
    Expr::Compare { op, left, right }
}

fn less_truth(alloc: Global, rt: &impl Abort, right: &str, datatype: &str) -> Option<bool> {
    let expr = one_is_less(alloc, rt, right, datatype);
    let env = seven(alloc, rt);
    evaluate_truth(alloc, &expr, &env).expect(rt, "memory")
}

#[test]
fn numbers_are_compared_and_a_string_is_an_error(rt: HostRuntime) {
    let alloc = rt.alloc();
    assert_eq!(rt; less_truth(alloc, &rt, "1.5", DECIMAL), Some(true));
    assert_eq!(rt; less_truth(alloc, &rt, "a", STRING), None);
}

#[test]
fn equal_numbers_have_an_order(rt: HostRuntime) {
    let integer = literal(rt.alloc(), &rt, "1", INTEGER);
    let decimal = literal(rt.alloc(), &rt, "1.0", DECIMAL);
    assert_eq!(rt; equal(&integer, &decimal), Some(true));
    assert!(rt; order(Some(&integer), Some(&decimal)).is_lt());
    assert!(rt; order(None, Some(&integer)).is_lt());
}
