//! Expressions.

ghost use Rattle.std.specs.Prelude.{◌≡◌, IfOk};
ghost use Rattle.expr_eval.specs.declared.expr.Expr.{And, Call, Compare, Not, Or, SameTerm, Signed, Sum};

use expr_eval::{CompareOp, Expr, Function, Sign};
use rdf_terms::{Boxed, Memory, Seq};
use std::alloc::Global;

/// One of these, by `||`.
pub fn any_of(all: Vec<Expr>) -> Expr
    ensures { result ≡ Or all.items }
{
    Expr::Or(Seq::from_vec(all))
}

/// Each of these, by `&&`.
pub fn all_of(all: Vec<Expr>) -> Expr
    ensures { result ≡ And all.items }
{
    Expr::And(Seq::from_vec(all))
}

/// Its negation, by `!`.
pub fn negated(alloc: Global, of: Expr) -> Result<Expr, Memory>
    ensures { IfOk result (λ e. e ≡ Not of) }
{
    Ok(Expr::Not(Boxed::new(alloc, of)?))
}

/// The operand with its sign.
pub fn signed(alloc: Global, sign: Sign, of: Expr) -> Result<Expr, Memory>
    ensures { IfOk result (λ e. e ≡ Signed sign of) }
{
    Ok(Expr::Signed {
        sign,
        of: Boxed::new(alloc, of)?,
    })
}

/// A comparison of the two.
pub fn compared(alloc: Global, op: CompareOp, left: Expr, right: Expr) -> Result<Expr, Memory>
    ensures { IfOk result (λ e. e ≡ Compare op left right) }
{
    let left = Boxed::new(alloc, left)?;
    Ok(Expr::Compare {
        op,
        left,
        right: Boxed::new(alloc, right)?,
    })
}

/// A sum of operands with their signs, from the left.
pub fn sum_of(alloc: Global, first: Expr, rest: Vec<(Sign, Expr)>) -> Result<Expr, Memory>
    ensures { IfOk result (λ e. e ≡ Sum first rest.items) }
{
    Ok(Expr::Sum {
        first: Boxed::new(alloc, first)?,
        rest: Seq::from_vec(rest),
    })
}

/// A call of a function of one argument.
pub fn called(alloc: Global, function: Function, of: Expr) -> Result<Expr, Memory>
    ensures { IfOk result (λ e. e ≡ Call function of) }
{
    Ok(Expr::Call {
        function,
        of: Boxed::new(alloc, of)?,
    })
}

/// A call of `sameTerm`.
pub fn same_term(alloc: Global, left: Expr, right: Expr) -> Result<Expr, Memory>
    ensures { IfOk result (λ e. e ≡ SameTerm left right) }
{
    let left = Boxed::new(alloc, left)?;
    Ok(Expr::SameTerm {
        left,
        right: Boxed::new(alloc, right)?,
    })
}
