ghost use Rattle.std.specs.Prelude.{◌≡◌, ◌<◌, ◌++◌, ◌∷◌, ◌+◌, [], take, length, flat_map, IsSome, IfOk, OnOk, OnErr};
ghost use Rattle.symmetric_join.specs.Joins.{met};
ghost use Rattle.symmetric_join.specs.Keys.{key_of as spec_key_of};

use crate::fed::Fed;
use crate::meeting::{meet_all, meet_at};
use crate::table::{Table, candidates, key_of, list_place};
use indexmap::IndexMap;
use rdf_terms::{Memory, Seq, Term};
use rows_core::Row;
use std::alloc::Global;
use std::marker::Model;

/// Rows in order of coming, with a table of the places of the first of them.
///
/// The table is made when rows are met with a row, and no sooner: where none is, it costs nothing.
#[derive(Drop)]
pub(crate) struct KeyedRows {
    alloc: Global,
    rows: Vec<Row>,
    vars: Vec<u16>,
    table: Table,
    listed: usize,
}

impl Model for KeyedRows {
    ghost use Rattle.symmetric_join.specs.Keys.{Keyed, Lists};

    ghost Value = { Keyed };

    ghost view = { λ k. record { vars = k.vars.items; rows = k.rows.items; listed = k.listed } };

    ghost invariant = { λ k. Lists k.vars.items k.rows.items k.listed k.table };
}

impl KeyedRows {
    /// No rows, to be listed by these variables. No memory is taken.
    #[tactic(auto, using(crate::proofs::Listing::lists_none))]
    pub(crate) fn new(alloc: Global, vars: Vec<u16>) -> KeyedRows
        ensures { result ≡ record { vars = vars.items; rows = []; listed = 0 } }
    {
        KeyedRows {
            alloc,
            rows: Vec::new(alloc),
            vars,
            table: IndexMap::new(alloc),
            listed: 0,
        }
    }

    /// The number of rows.
    pub(crate) fn len(&self) -> usize
        ensures { result ≡ length self.now.rows }
    {
        self.rows.len()
    }

    /// The key variables.
    pub(crate) fn vars(&self) -> &[u16]
        ensures { result.now ≡ self.now.vars }
    {
        self.vars.as_slice()
    }

    /// Appends the row, which is dropped where memory is wanting.
    #[tactic(auto, using(crate::proofs::Listing::lists_push))]
    pub(crate) fn push(&mut self, row: Row) -> Result<(), Memory>
        ensures ok { OnOk result (self.new ≡ record self.old { rows = self.old.rows ++ row ∷ [] }) }
        ensures err { OnErr result (self.new ≡ self.old) }
    {
        self.rows.push(row)?;
        Ok(())
    }

    /// Lists the rows by other variables from now on. No memory is taken.
    #[tactic(auto, using(crate::proofs::Listing::lists_none))]
    pub(crate) fn rekey(&mut self, vars: Vec<u16>)
        ensures { self.new ≡ record self.old { vars = vars.items; listed = 0 } }
    {
        self.table.clear();
        self.vars = vars;
        self.listed = 0;
    }

    fn list_row(&mut self) -> Result<(), Memory>
        requires { self.old.listed < length self.old.rows }
        ensures ok { OnOk result (self.new ≡ record self.old { listed = self.old.listed + 1 }) }
        ensures err { OnErr result (self.new ≡ self.old) }
    {
        let key = key_of(self.alloc, self.vars.as_slice(), &self.rows[self.listed])?;
        list_place(self.alloc, &mut self.table, key, self.listed)?;
        self.listed += 1;
        Ok(())
    }

    fn list_rows(&mut self) -> Result<(), Memory>
        ensures rows { self.new.rows ≡ self.old.rows }
        ensures vars { self.new.vars ≡ self.old.vars }
        ensures all { OnOk result (self.new.listed ≡ length self.new.rows) }
    {
        for _place in self.listed..self.rows.len() {
            self.list_row()?;
        }
        Ok(())
    }

    /// The merges of a row that comes to the other side with each compatible row, in their order.
    pub(crate) fn meet(&mut self, fed: Fed, row: &Row) -> Result<Vec<Row>, Memory>
        ensures merges { IfOk result (λ out. out.items ≡ flat_map (met fed row.now) self.old.rows) }
        ensures rows { self.new.rows ≡ self.old.rows }
        ensures vars { self.new.vars ≡ self.old.vars }
    {
        let key = key_of(self.alloc, self.vars.as_slice(), row)?;
        match key {
            None => meet_all(self.alloc, fed, row, self.rows.as_slice()),
            Some(_) => self.meet_listed(fed, row, &key),
        }
    }

    fn meet_listed(
        &mut self,
        fed: Fed,
        row: &Row,
        key: &Option<Seq<Term>>,
    ) -> Result<Vec<Row>, Memory>
        requires own { key.now ≡ spec_key_of self.old.vars row.now }
        requires whole { IsSome key.now }
        ensures merges { IfOk result (λ out. out.items ≡ flat_map (met fed row.now) self.old.rows) }
        ensures rows { self.new.rows ≡ self.old.rows }
        ensures vars { self.new.vars ≡ self.old.vars }
    {
        self.list_rows()?;
        let places = candidates(self.alloc, &self.table, key)?;
        meet_at(
            self.alloc,
            fed,
            row,
            self.rows.as_slice(),
            places.as_slice(),
        )
    }

    /// Keeps the first so many rows. No memory is taken.
    #[tactic(auto, using(crate::proofs::Listing::lists_none, crate::proofs::Listing::lists_short))]
    pub(crate) fn shorten(&mut self, len: usize)
        ensures rows { self.new.rows ≡ take len self.old.rows }
        ensures vars { self.new.vars ≡ self.old.vars }
    {
        if len < self.listed {
            self.table.clear();
            self.listed = 0;
        }
        self.rows.truncate(len);
    }
}
