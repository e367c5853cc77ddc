ghost use Rattle.std.specs.Prelude.{◌≡◌, IfOk};
ghost use Rattle.rows_core.specs.declared.pattern.Spot.TheVariants as spot;
ghost use Rattle.algebra_core.specs.Substitution as spec;

use crate::conditions::cell_at;
use rdf_terms::Memory;
use rows_core::{Row, Spot, TriplePattern};

/// The pattern with the row's terms in the place of the variables that it binds. Texts are shared.
pub(crate) fn substitute(pattern: &TriplePattern, row: &Row) -> Result<TriplePattern, Memory>
    ensures { IfOk result (λ p. p ≡ spec.substituted row.now pattern.now) }
{
    Ok(TriplePattern {
        s: substitute_spot(&pattern.s, row)?,
        p: substitute_spot(&pattern.p, row)?,
        o: substitute_spot(&pattern.o, row)?,
    })
}

fn substitute_spot(spot: &Spot, row: &Row) -> Result<Spot, Memory>
    ensures { IfOk result (λ s. s ≡ spec.substituted_spot row.now spot.now) }
{
    match spot {
        Spot::Term(term) => Ok(Spot::Term(term.copy()?)),
        Spot::Var(var) => substitute_var(*var, row),
    }
}

fn substitute_var(var: u16, row: &Row) -> Result<Spot, Memory>
    ensures { IfOk result (λ s. s ≡ spec.substituted_spot row.now (spot.Var var)) }
{
    match cell_at(row.cells(), var as usize) {
        Some(term) => Ok(Spot::Term(term.copy()?)),
        None => Ok(Spot::Var(var)),
    }
}
