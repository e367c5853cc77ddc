//! The names of variables.

ghost use Rattle.std.specs.Prelude.{◌≡◌, ◌≤◌, [], length, position, bytes_eq, IfOk, OnOk, OnErr};
ghost use Rattle.sparql_resolve.specs.Names.{add_name};

use indexmap::IndexSet;
use rdf_terms::{Memory, Seq, TextBuf};
use std::alloc::Global;
use std::marker::Model;

/// How many variables a query may have, with its blank nodes. A text of 65,536 bytes has no room
/// for more.
pub const MOST_NAMES: usize = 65535;

/// Names in the order of their first appearance, each once.
#[derive(Drop)]
pub struct Names {
    set: IndexSet<TextBuf>,
}

impl Model for Names {
    ghost use Rattle.std.specs.Prelude.{List, ◌≤◌, length};
    ghost use Rattle.rdf_terms.specs.declared.text.TextBuf.{TextBuf};

    ghost Value = { List TextBuf };

    ghost view = { λ n. n.set.keys };

    ghost invariant = { λ n. length n.set.keys ≤ 65535 };
}

impl Names {
    pub fn new(alloc: Global) -> Names
        ensures { result ≡ [] }
    {
        Names {
            set: IndexSet::new(alloc),
        }
    }

    pub fn len(&self) -> usize
        ensures len { result ≡ length self.now }
        ensures few { length self.now ≤ 65535 }
    {
        self.set.len()
    }

    /// Adds the name where it isn't there, and there is room.
    pub fn add(&mut self, name: TextBuf) -> Result<(), Memory>
        ensures { OnOk result (self.new ≡ add_name self.old name) }
    {
        if self.set.len() < MOST_NAMES {
            self.set.insert(name)?;
        }
        Ok(())
    }

    /// The number of the name.
    pub fn number(&self, name: &TextBuf) -> Option<usize>
        ensures { result ≡ position (bytes_eq name.now) self.now }
    {
        self.set.get_index_of(name)
    }

    /// The names themselves, lent.
    pub fn as_slice(&self) -> &[TextBuf]
        ensures { result.now ≡ self.now }
    {
        self.set.as_slice()
    }
}

/// Equal names. Their texts are shared with these.
pub fn copy_names(alloc: Global, names: &[TextBuf]) -> Result<Seq<TextBuf>, Memory>
    ensures { IfOk result (λ all. all ≡ names.now) }
{
    let mut all = Seq::new(alloc);
    for name in names {
        all.push(name.copy()?)?;
    }
    Ok(all)
}
