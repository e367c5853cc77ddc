ghost use Rattle.std.specs.Prelude.{◌≡◌, ◌<◌, ◌≤◌, ℕ, length, set, get_or, slice_get, None, IfOk, IfErr, OnOk};
ghost use Rattle.std.specs.List.{insert};
ghost use Rattle.std.specs.Option.{option_copied};
ghost use Rattle.std.specs.Cmp.Lexicographic.{slice_cmp};
ghost use Rattle.std.specs.Ordering.{nat_cmp};
ghost use Rattle.json_results.specs.Results.{head_text};
ghost use Rattle.json_results.specs.Columns as spec;
ghost use Rattle.json_results.specs.Columns.{with_place, grown, single};

use crate::ends::head_bytes;
use rdf_terms::{Memory, Term, TextBuf};
use std::alloc::Global;
use std::cmp::Ordering;
use std::marker::Model;

/// A selected name, and the places at which it is selected.
#[derive(Drop)]
pub struct Column {
    name: TextBuf,
    places: Vec<usize>,
}

impl Model for Column {
    ghost use Rattle.json_results.specs.Columns as spec;

    ghost Value = { spec.Column };

    ghost view = { λ c. record { name = c.name; places = c.places.items } };
}

impl Column {
    fn new(alloc: Global, name: &TextBuf, place: usize) -> Result<Column, Memory>
        ensures { IfOk result (λ c. c ≡ single name.now place) }
    {
        let name = name.copy()?;
        let places = Vec::from_array(alloc, [place])?;
        Ok(Column { name, places })
    }

    fn add(&mut self, place: usize) -> Result<(), Memory>
        ensures { OnOk result (self.new ≡ grown self.old place) }
    {
        self.places.push(place)?;
        Ok(())
    }

    // The order of a name and of this column's.
    fn compare(&self, name: &TextBuf) -> Ordering
        ensures { result ≡ slice_cmp nat_cmp name.now self.now.name }
    {
        name.cmp(&self.name)
    }

    /// The name that is selected.
    pub fn name(&self) -> &str
        ensures { result.now ≡ self.now.name }
    {
        self.name.as_str()
    }

    /// A row's term in this column: that of the last of its cells that is bound.
    pub fn term<'a>(&self, cells: &'a [Option<Term>]) -> Option<&'a Term>
        ensures { option_copied result ≡ spec.cell_of self.now cells.now }
    {
        last_bound(self.places.as_slice(), cells)
    }
}

fn last_bound<'a>(places: &[usize], cells: &'a [Option<Term>]) -> Option<&'a Term>
    ensures { option_copied result ≡ spec.last_bound None places.now cells.now }
{
    let mut found = None;
    for i in 0..places.len() {
        found = later(found, term_at(cells, places[i]));
    }
    found
}

fn later<'a>(earlier: Option<&'a Term>, more: Option<&'a Term>) -> Option<&'a Term>
    ensures { option_copied result ≡ spec.later (option_copied earlier.entry) (option_copied more.entry) }
{
    match more {
        Some(term) => Some(term),
        None => earlier,
    }
}

fn term_at(cells: &[Option<Term>], place: usize) -> Option<&Term>
    ensures { option_copied result ≡ spec.cell_at (slice_get cells.now place) }
{
    if place < cells.len() {
        cells[place].as_ref()
    } else {
        None
    }
}

// Where the column of a name is, or else where it has to stand.
fn find(columns: &[Column], name: &TextBuf) -> Result<usize, usize>
    ensures found { IfOk result (λ at. (at < length columns.now) × ((d : spec.Column) (place : ℕ) → with_place name.now place columns.now ≡ set columns.now at (grown (get_or columns.now at d) place))) }
    ensures missing { IfErr result (λ at. (at ≤ length columns.now) × ((place : ℕ) → with_place name.now place columns.now ≡ insert columns.now at (single name.now place))) }
{
    for i in 0..columns.len() {
        match columns[i].compare(name) {
            Ordering::Less => return Err(i),
            Ordering::Equal => return Ok(i),
            Ordering::Greater => {}
        }
    }
    Err(columns.len())
}

fn add_name(
    alloc: Global,
    columns: &mut Vec<Column>,
    name: &TextBuf,
    place: usize,
) -> Result<(), Memory>
    ensures { OnOk result (columns.new.items ≡ with_place name.now place columns.old.items) }
{
    match find(columns.as_slice(), name) {
        Ok(at) => columns[at].add(place)?,
        Err(at) => columns.insert(at, Column::new(alloc, name, place)?)?,
    }
    Ok(())
}

fn copied(alloc: Global, names: &[TextBuf]) -> Result<Vec<TextBuf>, Memory>
    ensures { IfOk result (λ all. all.items ≡ names.now) }
{
    let mut all = Vec::new(alloc);
    for i in 0..names.len() {
        all.push(names[i].copy()?)?;
    }
    Ok(all)
}

/// The columns of results: the selected names, in the ascending order of their bytes in which a row
/// has them. Contracts see the names as they are selected.
#[derive(Drop)]
pub struct Columns {
    names: Vec<TextBuf>,
    columns: Vec<Column>,
}

impl Model for Columns {
    ghost use Rattle.std.specs.Prelude.{◌≡◌, List, ℕ};
    ghost use Rattle.json_results.specs.Columns as spec;

    ghost Value = { List (List ℕ) };

    ghost view = { λ c. c.names.items };

    ghost invariant = { λ c. c.columns.items ≡ spec.columns_of c.names.items };
}

impl Columns {
    /// The columns of these names, which may repeat. It costs a comparison of each two names.
    pub fn new(alloc: Global, names: &[TextBuf]) -> Result<Columns, Memory>
        ensures { IfOk result (λ c. c ≡ names.now) }
    {
        let mut columns = Vec::new(alloc);
        for i in 0..names.len() {
            add_name(alloc, &mut columns, &names[i], i)?;
        }
        let names = copied(alloc, names)?;
        Ok(Columns { names, columns })
    }

    /// The text in front of the rows, to which they can be appended. It names the selected variables,
    /// in the order in which they are selected.
    pub fn head(&self, alloc: Global) -> Result<Vec<u8>, Memory>
        ensures { IfOk result (λ text. text.items ≡ head_text self.now) }
    {
        head_bytes(alloc, self.names.as_slice())
    }

    /// The columns in the order of their names.
    pub(crate) fn in_order(&self) -> &[Column]
        ensures { result.now ≡ spec.columns_of self.now }
    {
        self.columns.as_slice()
    }
}
