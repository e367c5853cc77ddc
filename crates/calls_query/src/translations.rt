//! Tests of `algebra_translation`.
use algebra_core::Algebra;
use algebra_translation::{
    Group, PartialGroup, boolean, called, compared, empty_group, filtered, finish_group, negated,
    number, once, plain_text, same_term, selected_by_star, signed, signed_number, sum_of,
    tagged_text, type_iri, typed_text, united, with_filter, with_group, with_option,
};
use expr_eval::{CompareOp, Expr, Function, Sign};
use rdf_terms::{Boxed, Memory, Seq, Term, TextBuf, write_term};
use rows_core::{Spot, TriplePattern};
use std::alloc::Global;
use std::process::Abort;

fn a_repeated_one_comes_once(alloc: Global, rt: &impl Abort) -> bool {
    let all = once(alloc, &[1, 0, 1]).expect(rt, "memory");
    all.as_slice() == [1, 0].as_slice()
}

// A pattern that binds the variables 1 and 0.
fn pattern(alloc: Global, rt: &impl Abort) -> TriplePattern {
    let verb = type_iri(alloc).expect(rt, "memory");
    TriplePattern {
        s: Spot::Var(1),
        p: Spot::Term(verb),
        o: Spot::Var(0),
    }
}

fn a_star_selects_by_number(alloc: Global, rt: &impl Abort) -> bool {
    let patterns = [pattern(alloc, rt)];
    let all = selected_by_star(alloc, 3, &patterns).expect(rt, "memory");
    all.as_slice() == [0, 1].as_slice()
}

#[test]
fn selects_a_repeated_variable_once(rt: HostRuntime) {
    let alloc = rt.alloc();
    assert!(rt; a_repeated_one_comes_once(alloc, &rt));
    assert!(rt; a_star_selects_by_number(alloc, &rt));
}

fn letter(alloc: Global, rt: &impl Abort) -> TextBuf {
    TextBuf::from_str(alloc, "a").expect(rt, "memory")
}

fn has_form(alloc: Global, rt: &impl Abort, term: Result<Term, Memory>, form: &str) -> bool {
    let term = term.expect(rt, "memory");
    write_term(alloc, &term).expect(rt, "memory").as_str() == form
}

fn plain_has_form(alloc: Global, rt: &impl Abort) -> bool {
    let a = letter(alloc, rt);
    has_form(alloc, rt, plain_text(alloc, &a), "\"a\"")
}

fn tagged_has_form(alloc: Global, rt: &impl Abort) -> bool {
    let a = letter(alloc, rt);
    has_form(alloc, rt, tagged_text(alloc, &a, &a), "\"a\"@a")
}

fn typed_has_form(alloc: Global, rt: &impl Abort) -> bool {
    let a = letter(alloc, rt);
    has_form(alloc, rt, typed_text(&a, &a), "\"a\"^^<a>")
}

fn number_has_form(alloc: Global, rt: &impl Abort) -> bool {
    let a = letter(alloc, rt);
    has_form(alloc, rt, number(&a, &a), "\"a\"^^<a>")
}

fn signed_number_has_form(alloc: Global, rt: &impl Abort) -> bool {
    let a = letter(alloc, rt);
    let term = signed_number(alloc, Sign::Minus, &a, &a);
    has_form(alloc, rt, term, "\"-a\"^^<a>")
}

const TYPE_FORM: &str = "<http://www.w3.org/1999/02/22-rdf-syntax-ns#type>";

const TRUE_FORM: &str = "\"true\"^^<http://www.w3.org/2001/XMLSchema#boolean>";

#[test]
fn terms_have_their_forms(rt: HostRuntime) {
    let alloc = rt.alloc();
    assert!(rt; has_form(alloc, &rt, type_iri(alloc), TYPE_FORM));
    assert!(rt; plain_has_form(alloc, &rt));
    assert!(rt; tagged_has_form(alloc, &rt));
    assert!(rt; typed_has_form(alloc, &rt));
    assert!(rt; number_has_form(alloc, &rt));
    assert!(rt; signed_number_has_form(alloc, &rt));
    assert!(rt; has_form(alloc, &rt, boolean(alloc, true), TRUE_FORM));
}

fn variable(of: &Boxed<Expr>) -> Option<u16> {
    match of.get() {
        Expr::Var(variable) => Some(*variable),
        _ => None,
    }
}

fn operands(expr: &Expr) -> (Option<u16>, Option<u16>) {
    match expr {
        Expr::Not(of) => (variable(of), None),
        Expr::Signed { sign: _, of } => (variable(of), None),
        Expr::Call { function: _, of } => (variable(of), None),
        Expr::Sum { first, rest: _ } => (variable(first), None),
        Expr::Compare { op: _, left, right } => (variable(left), variable(right)),
        Expr::SameTerm { left, right } => (variable(left), variable(right)),
        _ => (None, None),
    }
}

fn holds_one(rt: &impl Abort, expr: Result<Expr, Memory>) -> bool {
    let expr = expr.expect(rt, "memory");
    operands(&expr) == (Some(1), None)
}

fn holds_two(rt: &impl Abort, expr: Result<Expr, Memory>) -> bool {
    let expr = expr.expect(rt, "memory");
    operands(&expr) == (Some(1), Some(2))
}

fn a_comparison_holds_both(alloc: Global, rt: &impl Abort) -> bool {
    let expr = compared(alloc, CompareOp::Less, Expr::Var(1), Expr::Var(2));
    holds_two(rt, expr)
}

#[test]
fn expressions_hold_their_operands(rt: HostRuntime) {
    let alloc = rt.alloc();
    assert!(rt; holds_one(&rt, negated(alloc, Expr::Var(1))));
    assert!(rt; holds_one(&rt, signed(alloc, Sign::Minus, Expr::Var(1))));
    assert!(rt; holds_one(&rt, called(alloc, Function::Str, Expr::Var(1))));
    assert!(rt; holds_one(&rt, sum_of(alloc, Expr::Var(1), Vec::new(alloc))));
    assert!(rt; a_comparison_holds_both(alloc, &rt));
    assert!(rt; holds_two(&rt, same_term(alloc, Expr::Var(1), Expr::Var(2))));
}

fn nothing(alloc: Global) -> Algebra {
    Algebra::Bgp(Seq::new(alloc))
}

fn union(alloc: Global, rt: &impl Abort) -> Algebra {
    united(alloc, nothing(alloc), nothing(alloc)).expect(rt, "memory")
}

// A filter, and then a union.
fn stage(alloc: Global, rt: &impl Abort) -> PartialGroup {
    let stage = with_filter(empty_group(alloc), Expr::Var(0)).expect(rt, "memory");
    let union = union(alloc, rt);
    with_group(alloc, stage, union).expect(rt, "memory")
}

fn option(alloc: Global) -> Group {
    Group {
        algebra: nothing(alloc),
        filters: Vec::new(alloc),
    }
}

// An optional group behind a union, with a filter round both.
fn body(alloc: Global, rt: &impl Abort) -> Algebra {
    let stage = with_option(alloc, stage(alloc, rt), option(alloc)).expect(rt, "memory");
    let group = finish_group(alloc, stage).expect(rt, "memory");
    filtered(alloc, group).expect(rt, "memory")
}

fn is_union(algebra: &Algebra) -> bool {
    matches!(algebra, Algebra::Union(_, _))
}

fn is_option_of_union(algebra: &Algebra) -> bool {
    match algebra {
        Algebra::LeftJoin(before, _, Expr::Constant(_)) => is_union(before.get()),
        _ => false,
    }
}

fn is_in_order(algebra: &Algebra) -> bool {
    match algebra {
        Algebra::Filter(Expr::Var(0), of) => is_option_of_union(of.get()),
        _ => false,
    }
}

fn a_body_is_in_order(alloc: Global, rt: &impl Abort) -> bool {
    let body = body(alloc, rt);
    is_in_order(&body)
}

#[test]
fn groups_stand_in_their_order(rt: HostRuntime) {
    let alloc = rt.alloc();
    assert!(rt; a_body_is_in_order(alloc, &rt));
}
