ghost use Rattle.std.specs.Prelude.{◌≡◌, ◌≤◌, ◌<◌, ◌+◌, ◌-◌, ◌^◌, ◌↔◌, min, true, IsSome, IfOk, OnOk, Some, []};
ghost use Rattle.outer_ports.specs.Causes.{Rose};
ghost use Rattle.reachability.specs.declared.record.Cause.{Cause};
ghost use Rattle.reachability.specs.Web.{heard_at};
ghost use Rattle.web_port.specs.Counts.{no_losses, RoseBy, lost_in};
ghost use Rattle.web_port.specs.Lanes.{nothing_flying};
ghost use Rattle.web_port.specs.MemoryWeb.{fetch_of, fetching_port, is_empty_list};
ghost use Rattle.web_port.specs.Port.{IsNew};
ghost use Rattle.web_port.specs.Settings.{AreSettings};

use crate::{FetchSettings, Links, Losses, MakeFault, MemoryWeb};
use rdf_terms::{Memory, TextBuf};
use reachability::Web;
use std::alloc::Global;
use std::marker::Model;

/// Makes fetchers over one web in memory, and fails once, at the call that it was told.
#[derive(Drop)]
pub struct MemoryLinks {
    alloc: Global,
    web: Web,
    fails: Vec<(TextBuf, u8)>,
    refuse: u64,
    calls: u64,
    faults: u64,
    spent: u64,
    lost: Losses,
}

impl Model for MemoryLinks {
    ghost use Rattle.web_port.specs.MemoryLinks.{Linking};

    ghost Value = { Linking };

    ghost view = { λ l. record {
      web = l.web;
      fails = l.fails.items;
      refuse = l.refuse;
      calls = l.calls;
      faults = l.faults;
      spent = l.spent;
      lost = l.lost;
    } };
}

impl MemoryLinks {
    /// Fetchers over the web, whose links of `fails` fail to connect in their first so many tries.
    /// The call `refuse`, from 0, fails; `u64::MAX` is for never. A call that ends in want of
    /// memory isn't counted.
    pub fn new(alloc: Global, web: Web, fails: Vec<(TextBuf, u8)>, refuse: u64) -> MemoryLinks
        ensures { result ≡ record {
          web = web;
          fails = fails.items;
          refuse = refuse;
          calls = 0;
          faults = 0;
          spent = 0;
          lost = no_losses;
        } }
    {
        MemoryLinks {
            alloc,
            web,
            fails,
            refuse,
            calls: 0,
            faults: 0,
            spent: 0,
            lost: Losses::none(),
        }
    }
}

// The entries once more.
fn copy_fails(alloc: Global, fails: &[(TextBuf, u8)]) -> Result<Vec<(TextBuf, u8)>, Memory>
    ensures { IfOk result (λ copy. copy.items ≡ fails.now) }
{
    let mut copy = Vec::new(alloc);
    for entry in fails {
        copy.push((entry.0.copy()?, entry.1))?;
    }
    Ok(copy)
}

// A fetcher with nothing open.
fn make(
    alloc: Global,
    web: &Web,
    fails: &[(TextBuf, u8)],
    settings: &FetchSettings,
) -> Result<MemoryWeb, Memory>
    requires { AreSettings settings.now }
    ensures { IfOk result (λ f. f ≡ record {
      web = web.now;
      lanes = settings.now.lanes;
      tries = settings.now.tries;
      turns = [];
      fails = fails.now;
      flying = nothing_flying;
    }) }
{
    let fails = copy_fails(alloc, fails)?;
    let web = web.copy(alloc)?;
    let settings = settings.copy()?;
    Ok(MemoryWeb::new(alloc, web, settings, Vec::new(alloc), fails))
}

impl Links for MemoryLinks {
    type F = MemoryWeb;

    ghost web = { λ l. Some (heard_at l.web) };

    ghost sure = { λ l. is_empty_list l.fails };

    ghost faults = { λ l. l.faults };

    ghost spent = { λ l. l.spent };

    ghost lost = { λ l. l.lost };

    /// It costs a copy of the web.
    fn fetcher(&mut self, settings: &FetchSettings) -> Result<MemoryWeb, MakeFault>
        requires { AreSettings settings.now }
        ensures fetch { IfOk result (λ f. fetch_of f.web f.tries f.fails
            ≡ fetch_of self.old.web settings.now.tries self.old.fails) }
        ensures lanes { IfOk result (λ f. f.lanes ≡ settings.now.lanes) }
        ensures new { IfOk result (λ f. IsNew (fetching_port f)) }
        ensures cause { result ≡ Err MakeFault.Failed → Rose self.old.faults self.new.faults }
        ensures later { self.old.faults ≤ self.new.faults }
        ensures memory { result ≡ Err MakeFault.Memory → self.new.faults ≡ self.old.faults }
        ensures calm { OnOk result (self.new.faults ≡ self.old.faults) }
        ensures told { is_empty_list self.old.fails ≡ true → IsSome (Some (heard_at self.old.web)) }
        ensures same { (Some (heard_at self.new.web) ≡ Some (heard_at self.old.web))
            × (is_empty_list self.new.fails ≡ is_empty_list self.old.fails) }
        ensures kept { (self.new.spent ≡ self.old.spent) × (self.new.lost ≡ self.old.lost) }

        // It fails exactly at the call that it was told, and then counts the call and the fault.
        ensures exactly { (result ≡ Err MakeFault.Failed)
            ↔ ((self.old.calls ≡ self.old.refuse) × (self.old.refuse < 2 ^ 64 - 1)) }
        ensures calls { (result ≡ Err MakeFault.Memory → self.new ≡ self.old)
            × ((result ≡ Err MakeFault.Memory → ⊥)
            → self.new.calls ≡ min (self.old.calls + 1) (2 ^ 64 - 1)) }
        ensures counted { (result ≡ Err MakeFault.Failed → self.new.faults ≡ min (self.old.faults + 1) (2 ^ 64 - 1))
            × ((result ≡ Err MakeFault.Failed → ⊥) → self.new.faults ≡ self.old.faults) }
        ensures made { IfOk result (λ f. (f.turns ≡ []) × (f.fails ≡ self.old.fails)) }
        ensures rest { (self.new.web ≡ self.old.web) × (self.new.refuse ≡ self.old.refuse) × (self.new.fails ≡ self.old.fails) }
    {
        if self.calls == self.refuse && self.refuse < u64::MAX {
            self.calls = self.calls.saturating_add(1);
            self.faults = self.faults.saturating_add(1);
            return Err(MakeFault::Failed);
        }
        match make(self.alloc, &self.web, self.fails.as_slice(), settings) {
            Ok(fetcher) => {
                self.calls = self.calls.saturating_add(1);
                Ok(fetcher)
            }
            Err(_) => Err(MakeFault::Memory),
        }
    }

    fn retire(&mut self, fetcher: MemoryWeb)
        ensures spent { RoseBy self.old.spent fetcher.flying.faults self.new.spent }
        ensures lost { (c : Cause) → RoseBy (lost_in self.old.lost c)
            (lost_in fetcher.flying.lost c) (lost_in self.new.lost c) }
        ensures same { (Some (heard_at self.new.web) ≡ Some (heard_at self.old.web))
            × (is_empty_list self.new.fails ≡ is_empty_list self.old.fails) }
        ensures faults { self.new.faults ≡ self.old.faults }
        ensures rest { (self.new.web ≡ self.old.web) × (self.new.refuse ≡ self.old.refuse) × (self.new.fails ≡ self.old.fails)
            × (self.new.calls ≡ self.old.calls) }
    {
        self.spent = self.spent.saturating_add(fetcher.faults());
        self.lost.add_all(&fetcher.lost());
    }
}
