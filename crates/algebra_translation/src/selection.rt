//! Which variables are selected.

ghost use Rattle.std.specs.Prelude.{◌≡◌, ◌==◌, IfOk, OnOk, []};
ghost use Rattle.std.specs.List.{list_any};
ghost use Rattle.algebra_translation.specs.Views as held;
ghost use Rattle.algebra_translation.specs.Translation as spec;

use indexmap::IndexSet;
use rdf_terms::Memory;
use rows_core::{Spot, TriplePattern};
use std::alloc::Global;
use std::marker::Model;

/// Variables in the order of first appearance, each once.
#[derive(Drop)]
struct Variables {
    set: IndexSet<u16>,
}

impl Model for Variables {
    ghost use Rattle.std.specs.Prelude.{List, ℕ};

    ghost Value = { List ℕ };

    ghost view = { λ v. v.set.keys };
}

impl Variables {
    fn new(alloc: Global) -> Variables
        ensures { result ≡ [] }
    {
        Variables {
            set: IndexSet::new(alloc),
        }
    }

    #[tactic(auto, using(crate::proofs::InScope::inserted))]
    fn insert(&mut self, variable: u16) -> Result<(), Memory>
        ensures { OnOk result (self.new ≡ spec.with_once self.old variable) }
    {
        self.set.insert(variable)?;
        Ok(())
    }

    fn insert_spot(&mut self, spot: &Spot) -> Result<(), Memory>
        ensures { OnOk result (self.new ≡ held.with_spot self.old spot.now) }
    {
        match spot {
            Spot::Term(_) => Ok(()),
            Spot::Var(variable) => self.insert(*variable),
        }
    }

    fn insert_pattern(&mut self, pattern: &TriplePattern) -> Result<(), Memory>
        ensures { OnOk result (self.new ≡ held.with_pattern self.old pattern.now) }
    {
        self.insert_spot(&pattern.s)?;
        self.insert_spot(&pattern.p)?;
        self.insert_spot(&pattern.o)
    }

    #[tactic(auto, using(crate::proofs::InScope::any_turned))]
    fn contains(&self, variable: u16) -> bool
        ensures { result ≡ list_any (λ w. w == variable) self.now }
    {
        self.set.contains(&variable)
    }

    fn as_slice(&self) -> &[u16]
        ensures { result.now ≡ self.now }
    {
        self.set.as_slice()
    }
}

/// The variables as they are written, a repeated one once. It costs a hash of each.
pub fn once(alloc: Global, variables: &[u16]) -> Result<Vec<u16>, Memory>
    ensures { IfOk result (λ all. all.items ≡ spec.once variables.now) }
{
    let mut seen = Variables::new(alloc);
    for variable in variables {
        seen.insert(*variable)?;
    }
    Ok(Vec::from_slice(alloc, seen.as_slice())?)
}

fn variables_in(alloc: Global, patterns: &[TriplePattern]) -> Result<Variables, Memory>
    ensures { IfOk result (λ all. all ≡ held.variables_in patterns.now) }
{
    let mut all = Variables::new(alloc);
    for pattern in patterns {
        all.insert_pattern(pattern)?;
    }
    Ok(all)
}

fn add_in_scope(all: &mut Vec<u16>, variable: u16, in_scope: &Variables) -> Result<(), Memory>
    ensures { OnOk result (all.new.items ≡ held.with_member all.old.items variable in_scope.now) }
{
    if in_scope.contains(variable) {
        all.push(variable)?;
    }
    Ok(())
}

/// The named variables that stand in one of the patterns, by their numbers. It costs a hash of each
/// variable in the patterns, and one of each number.
pub fn selected_by_star(
    alloc: Global,
    names: u16,
    patterns: &[TriplePattern],
) -> Result<Vec<u16>, Memory>
    ensures { IfOk result (λ all. all.items ≡ spec.in_scope names patterns.now) }
{
    let in_scope = variables_in(alloc, patterns)?;
    let mut all = Vec::new(alloc);
    for variable in 0..names {
        add_in_scope(&mut all, variable, &in_scope)?;
    }
    Ok(all)
}
