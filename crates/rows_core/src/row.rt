ghost use Rattle.std.specs.Prelude.{◌≡◌, IfOk, slice_get};
ghost use Rattle.rows_core.specs.Rows as spec;

use rdf_terms::{Memory, Term};
use std::alloc::Global;
use std::marker::Model;

/// A row of solutions: one optional term for each variable, at the place of its number.
#[derive(Debug, Drop)]
pub struct Row {
    cells: Vec<Option<Term>>,
}

impl Model for Row {
    ghost use Rattle.rows_core.specs.Rows.{Cells};

    ghost Value = { Cells };

    ghost view = { λ r. r.cells.items };
}

impl Row {
    /// The row with no variable bound.
    #[tactic(auto, using(crate::proofs::RowSteps::unbound_more))]
    pub fn unbound(alloc: Global, width: u16) -> Result<Row, Memory>
        ensures { IfOk result (λ r. r ≡ spec.unbound width) }
    {
        let mut cells = Vec::new(alloc);
        for _variable in 0..width {
            cells.push(None)?;
        }
        Ok(Row { cells })
    }

    /// The row of these cells. No memory is taken.
    pub fn from_vec(cells: Vec<Option<Term>>) -> Row
        ensures { result ≡ cells.items }
    {
        Row { cells }
    }

    /// The cells as a vector. No memory is taken.
    pub fn into_vec(self) -> Vec<Option<Term>>
        ensures { result.items ≡ self }
    {
        self.cells
    }

    /// The cells themselves, lent.
    pub fn cells(&self) -> &[Option<Term>]
        ensures { result.now ≡ self.now }
    {
        self.cells.as_slice()
    }

    /// The row's cells at the selected variables, in that order (SPARQL 1.1 Query Language, section
    /// 18.5, Project); free where there is no such cell. It costs a copy of each selected cell.
    pub fn project(&self, alloc: Global, select: &[u16]) -> Result<Row, Memory>
        ensures { IfOk result (λ r. r ≡ spec.projected select.now self.now) }
    {
        let cells = project_cells(alloc, select, self.cells())?;
        Ok(Row { cells })
    }

    /// An equal row. Its texts are shared with this one. It costs a copy of each cell.
    pub fn copy(&self, alloc: Global) -> Result<Row, Memory>
        ensures { IfOk result (λ r. r ≡ self.now) }
    {
        let cells = copy_cells(alloc, self.cells())?;
        Ok(Row { cells })
    }
}

pub(crate) fn copy_cell(cell: &Option<Term>) -> Result<Option<Term>, Memory>
    ensures { IfOk result (λ c. c ≡ cell.now) }
{
    match cell {
        None => Ok(None),
        Some(term) => Ok(Some(term.copy()?)),
    }
}

pub(crate) fn copy_cells(alloc: Global, cells: &[Option<Term>]) -> Result<Vec<Option<Term>>, Memory>
    ensures { IfOk result (λ out. out.items ≡ cells.now) }
{
    let mut out = Vec::new(alloc);
    for cell in cells {
        out.push(copy_cell(cell)?)?;
    }
    Ok(out)
}

#[tactic(auto, using(crate::proofs::RowSteps::projected_more))]
fn project_cells(
    alloc: Global,
    select: &[u16],
    cells: &[Option<Term>],
) -> Result<Vec<Option<Term>>, Memory>
    ensures { IfOk result (λ out. out.items ≡ spec.projected select.now cells.now) }
{
    let mut out = Vec::new(alloc);
    for var in select {
        out.push(copy_cell_at(cells, *var as usize)?)?;
    }
    Ok(out)
}

fn copy_cell_at(cells: &[Option<Term>], var: usize) -> Result<Option<Term>, Memory>
    ensures { IfOk result (λ c. c ≡ spec.cell_or_unbound (slice_get cells.now var)) }
{
    if var < cells.len() {
        copy_cell(&cells[var])
    } else {
        Ok(None)
    }
}
