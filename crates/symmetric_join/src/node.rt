ghost use Rattle.std.specs.Prelude.{◌≡◌, ◌++◌, [], length, filter, IfOk, OnOk, OnErr};
ghost use Rattle.std.specs.List.Sorted.{IsPermutation};
ghost use Rattle.symmetric_join.specs.Sides.{with_left, with_right, shortened, left_merges, right_merges, output};
ghost use Rattle.symmetric_join.specs.Keys.{is_bound};

use crate::fed::Fed;
use crate::keyed::KeyedRows;
use rdf_terms::{Memory, Term};
use rows_core::Row;
use std::alloc::Global;
use std::marker::Model;

/// The rows fed to each side of a join.
///
/// Each side lists its rows by the terms of the variables that all rows of both sides bind so far,
/// so that a row is met with those alone that have its terms, and with the few that bind none of these variables.
#[derive(Drop)]
pub struct Node {
    alloc: Global,
    width: u16,
    lefts: KeyedRows,
    rights: KeyedRows,
}

impl Model for Node {
    ghost use Rattle.symmetric_join.specs.Sides.{Sides};

    ghost Value = { Sides };

    ghost view = { λ n. record { width = n.width; lefts = n.lefts.rows; rights = n.rights.rows } };
}

fn is_bound_at(cells: &[Option<Term>], var: usize) -> bool
    ensures { result ≡ is_bound cells.now var }
{
    if var >= cells.len() {
        return false;
    }
    match &cells[var] {
        None => false,
        Some(_) => true,
    }
}

#[tactic(auto, using(crate::proofs::Meetings::kept_more, crate::proofs::Meetings::dropped_more))]
fn bound_of(alloc: Global, vars: &[u16], row: &Row) -> Result<Vec<u16>, Memory>
    ensures { IfOk result (λ out. out.items ≡ filter (is_bound row.now) vars.now) }
{
    let mut out = Vec::new(alloc);
    for var in vars {
        if is_bound_at(row.cells(), *var as usize) {
            out.push(*var)?;
        }
    }
    Ok(out)
}

fn all_vars(alloc: Global, width: u16) -> Result<Vec<u16>, Memory> {
    let mut vars = Vec::new(alloc);
    for var in 0..width {
        vars.push(var)?;
    }
    Ok(vars)
}

impl Node {
    /// No rows. It costs room for the variables' numbers.
    pub fn new(alloc: Global, width: u16) -> Result<Node, Memory>
        ensures { IfOk result (λ node. node ≡ record { width = width; lefts = []; rights = [] }) }
    {
        let lefts = KeyedRows::new(alloc, all_vars(alloc, width)?);
        let rights = KeyedRows::new(alloc, all_vars(alloc, width)?);
        Ok(Node {
            alloc,
            width,
            lefts,
            rights,
        })
    }

    // Where the row binds some key variables and leaves others unbound, only those that it binds stay.
    fn narrow(&mut self, row: &Row) -> Result<(), Memory>
        ensures { self.new ≡ self.old }
    {
        let lefts = bound_of(self.alloc, self.lefts.vars(), row)?;
        if lefts.len() == 0 || lefts.len() == self.lefts.vars().len() {
            return Ok(());
        }
        let rights = bound_of(self.alloc, self.rights.vars(), row)?;
        self.lefts.rekey(lefts);
        self.rights.rekey(rights);
        Ok(())
    }

    #[tactic(auto, using(crate::proofs::Gains::gains_left))]
    /// Feeds a row to the left, and gives its merge with each compatible right. It costs what the
    /// rights with its terms of the key variables cost, and the rows that came since the last feed to the left.
    pub fn feed_left(&mut self, row: Row) -> Result<Vec<Row>, Memory>
        ensures order { IfOk result (λ out. out.items ≡ left_merges row self.old.rights) }
        ensures fed { OnOk result (self.new ≡ with_left self.old row) }
        ensures gains { IfOk result (λ out. IsPermutation (output self.new) (output self.old ++ out.items)) }
        ensures err { OnErr result (self.new ≡ self.old) }
    {
        self.narrow(&row)?;
        let out = self.rights.meet(Fed::Left, &row)?;
        self.lefts.push(row)?;
        Ok(out)
    }

    /// Feeds a row to the right, and gives the merge of each compatible left with it.
    pub fn feed_right(&mut self, row: Row) -> Result<Vec<Row>, Memory>
        ensures order { IfOk result (λ out. out.items ≡ right_merges row self.old.lefts) }
        ensures fed { OnOk result (self.new ≡ with_right self.old row) }
        ensures gains { IfOk result (λ out. IsPermutation (output self.new) (output self.old ++ out.items)) }
        ensures err { OnErr result (self.new ≡ self.old) }
    {
        self.narrow(&row)?;
        let out = self.lefts.meet(Fed::Right, &row)?;
        self.rights.push(row)?;
        Ok(out)
    }

    /// The numbers of lefts and rights.
    pub fn lens(&self) -> (usize, usize)
        ensures { result ≡ (length self.now.lefts, length self.now.rights) }
    {
        (self.lefts.len(), self.rights.len())
    }

    /// Keeps the first so many rows of each side. No memory is taken.
    pub fn shorten(&mut self, lefts: usize, rights: usize)
        ensures { self.new ≡ shortened self.old lefts rights }
    {
        self.lefts.shorten(lefts);
        self.rights.shorten(rights);
    }
}
