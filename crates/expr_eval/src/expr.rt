ghost use Rattle.std.specs.Prelude.{◌≡◌, IfOk};

use rdf_terms::{Boxed, Memory, Seq, Term};
use std::alloc::Global;

/// A function of one term (SPARQL 1.1, section 17.4.2).
#[derive(Clone, Copy, Debug, PartialEq, Eq)]
pub enum Function {
    Str,
    Lang,
    Datatype,
    /// `isIRI`, which is also written `isURI`.
    IsIri,
    IsBlank,
    IsLiteral,
}

/// A comparison (SPARQL 1.1, section 17.3).
#[derive(Clone, Copy, Debug, PartialEq, Eq)]
pub enum CompareOp {
    Equal,
    NotEqual,
    Less,
    LessEqual,
    Greater,
    GreaterEqual,
}

/// A sign before an operand.
#[derive(Clone, Copy, Debug, PartialEq, Eq)]
pub enum Sign {
    Plus,
    Minus,
}

/// An expression (SPARQL 1.1, section 19.8, from rule 110 on). Variables are numbers.
///
/// In a valid one each `Or` and `And` has at least two members, and the rest of each `Sum` is not
/// empty. Of others an `Or` without members is false and an `And` true.
#[derive(Debug, Drop)]
pub enum Expr {
    Var(u16),
    Constant(Term),
    Or(Seq<Expr>),
    And(Seq<Expr>),
    Not(Boxed<Expr>),
    Compare {
        op: CompareOp,
        left: Boxed<Expr>,
        right: Boxed<Expr>,
    },
    /// A sum of signed operands, taken from the left.
    Sum {
        first: Boxed<Expr>,
        rest: Seq<(Sign, Expr)>,
    },
    Signed {
        sign: Sign,
        of: Boxed<Expr>,
    },
    Bound(u16),
    Call {
        function: Function,
        of: Boxed<Expr>,
    },
    SameTerm {
        left: Boxed<Expr>,
        right: Boxed<Expr>,
    },
}

impl Expr {
    /// An equal expression. Its texts are shared with this one.
    #[cycle(copying)]
    pub fn copy(&self, alloc: Global) -> Result<Expr, Memory>
        ensures { IfOk result (λ e. e ≡ self.now) }
    {
        match self {
            Expr::Var(var) => Ok(Expr::Var(*var)),
            Expr::Constant(term) => Ok(Expr::Constant(term.copy()?)),
            Expr::Or(parts) => Ok(Expr::Or(copy_all(alloc, parts)?)),
            Expr::And(parts) => Ok(Expr::And(copy_all(alloc, parts)?)),
            Expr::Not(of) => Ok(Expr::Not(copy_boxed(alloc, of)?)),
            Expr::Compare { op, left, right } => Ok(Expr::Compare {
                op: *op,
                left: copy_boxed(alloc, left)?,
                right: copy_boxed(alloc, right)?,
            }),
            Expr::Sum { first, rest } => Ok(Expr::Sum {
                first: copy_boxed(alloc, first)?,
                rest: copy_operands(alloc, rest)?,
            }),
            Expr::Signed { sign, of } => Ok(Expr::Signed {
                sign: *sign,
                of: copy_boxed(alloc, of)?,
            }),
            Expr::Bound(var) => Ok(Expr::Bound(*var)),
            Expr::Call { function, of } => Ok(Expr::Call {
                function: *function,
                of: copy_boxed(alloc, of)?,
            }),
            Expr::SameTerm { left, right } => Ok(Expr::SameTerm {
                left: copy_boxed(alloc, left)?,
                right: copy_boxed(alloc, right)?,
            }),
        }
    }
}

#[cycle(copying)]
fn copy_boxed(alloc: Global, of: &Boxed<Expr>) -> Result<Boxed<Expr>, Memory>
    ensures { IfOk result (λ e. e ≡ of.now) }
{
    Boxed::new(alloc, of.get().copy(alloc)?)
}

#[cycle(copying)]
fn copy_all(alloc: Global, parts: &Seq<Expr>) -> Result<Seq<Expr>, Memory>
    ensures { IfOk result (λ all. all ≡ parts.now) }
{
    let mut all = Seq::new(alloc);
    for part in parts.as_slice() {
        all.push(part.copy(alloc)?)?;
    }
    Ok(all)
}

#[cycle(copying)]
fn copy_operands(alloc: Global, operands: &Seq<(Sign, Expr)>) -> Result<Seq<(Sign, Expr)>, Memory>
    ensures { IfOk result (λ all. all ≡ operands.now) }
{
    let mut all = Seq::new(alloc);
    for operand in operands.as_slice() {
        all.push((operand.0, operand.1.copy(alloc)?))?;
    }
    Ok(all)
}
