ghost use Rattle.std.specs.Prelude.{◌≡◌, ◌<◌, ◌≤◌, ◌+◌, ◌-◌, ◌^◌, [], ◌∷◌, ◌++◌, length, map, All, IfOk, OnOk, OnErr, vec_len, vec_capacity};
ghost use Rattle.outer_ports.specs.Causes.{one_more};
ghost use Rattle.doc_server.specs.Peering.{GivesNext, TakesBack};
ghost use Rattle.doc_server.specs.Memory.{IsUnused, GivesInMemory, connection_of, peering_of};

use crate::memory_conn::MemoryConn;
use crate::peers::{NextPeer, Peers};
use rdf_terms::Memory;
use std::alloc::Global;
use std::collections::VecDeque;
use std::marker::Model;
use std::snapshot::Snapshot;

/// Connections in memory, given in their order. It tells what each held and was answered.
#[derive(Drop)]
pub struct MemoryPeers {
    waiting: VecDeque<MemoryConn>,
    given: Vec<Snapshot<MemoryConn>>,
    returned: Vec<MemoryConn>,
    fail: Vec<u64>,
    calls: u64,
    faults: u64,
}

impl Model for MemoryPeers {
    ghost use Rattle.std.specs.Prelude.{map, vec_len, vec_capacity};
    ghost use Rattle.doc_server.specs.Memory.{MayGive, MemoryPeering};

    ghost Value = { MemoryPeering };

    ghost view = { λ p. record {
      waiting = p.waiting.items;
      given = map (λ s. s.value) p.given.items;
      returned = p.returned.items;
      fail = p.fail.items;
      calls = p.calls;
      faults = p.faults;
    } };

    ghost invariant = { λ p. MayGive p.waiting.items (vec_len p.given) (vec_capacity p.given)
        (vec_len p.returned) (vec_capacity p.returned) };
}

/// Room for so many connections, as given and as handed back. There are fewer than a count may reach.
fn rooms(
    alloc: Global,
    count: usize,
) -> Result<(Vec<Snapshot<MemoryConn>>, Vec<MemoryConn>), Memory>
    ensures few { OnOk result (count < 2 ^ 64 - 1) }
    ensures given { IfOk result (λ r. (r.0.items ≡ []) × (vec_len r.0 ≡ 0)
        × (count ≤ vec_capacity r.0)) }
    ensures returned { IfOk result (λ r. (r.1.items ≡ []) × (vec_len r.1 ≡ 0)
        × (count ≤ vec_capacity r.1)) }
{
    if count == usize::MAX {
        return Err(Memory);
    }
    let given = Vec::with_capacity(alloc, count)?;
    let returned = Vec::with_capacity(alloc, count)?;
    Ok((given, returned))
}

/// Remembers a connection as it is. There is room for it.
fn remember(given: &mut Vec<Snapshot<MemoryConn>>, conn: &MemoryConn)
    requires { vec_len given.old < vec_capacity given.old }
    ensures items { map (λ s. s.value) given.new.items ≡ map (λ s. s.value) given.old.items ++ conn.now ∷ [] }
    ensures len { vec_len given.new ≡ vec_len given.old + 1 }
    ensures capacity { vec_capacity given.old ≤ vec_capacity given.new }
{
    let _ = given.push(Snapshot::of(conn));
}

impl MemoryPeers {
    /// Gives the connections in their order. The calls of `next` whose number, from 0, stands in `fail`
    /// fail, and those that find no connection left.
    pub fn new(alloc: Global, conns: Vec<MemoryConn>, fail: Vec<u64>) -> Result<MemoryPeers, Memory>
        requires { All IsUnused conns.items }
        ensures { IfOk result (λ p. p ≡ record {
          waiting = conns.items;
          given = [];
          returned = [];
          fail = fail.items;
          calls = 0;
          faults = 0;
        }) }
    {
        match rooms(alloc, conns.len()) {
            Ok((given, returned)) => Ok(MemoryPeers {
                waiting: VecDeque::from_vec(conns),
                given,
                returned,
                fail,
                calls: 0,
                faults: 0,
            }),
            Err(_) => Err(Memory),
        }
    }

    /// The connections that were handed back.
    pub fn returned(&self) -> &[MemoryConn]
        ensures { result.now ≡ self.now.returned }
    {
        self.returned.as_slice()
    }
}

impl Peers for MemoryPeers {
    type Conn = MemoryConn;

    ghost peering = { peering_of };

    fn next(&mut self) -> Result<NextPeer<MemoryConn>, Memory>
        ensures gives { IfOk result (λ next. GivesNext connection_of (peering_of self.old) next
            (peering_of self.new)) }
        ensures err { OnErr result (peering_of self.new ≡ peering_of self.old) }

        // It fails exactly at the numbered calls and where none waits, and else gives the first that waits.
        ensures exactly { IfOk result (GivesInMemory self.old self.new) }
    {
        let failing = self.fail.contains(&self.calls);
        self.calls = self.calls.saturating_add(1);
        if failing {
            self.faults = self.faults.saturating_add(1);
            return Ok(NextPeer::Failed);
        }
        match self.waiting.pop_front() {
            Some(conn) => {
                remember(&mut self.given, &conn);
                Ok(NextPeer::Peer(conn))
            }
            None => {
                self.faults = self.faults.saturating_add(1);
                Ok(NextPeer::Failed)
            }
        }
    }

    fn back(&mut self, conn: MemoryConn)
        requires { one_more (length self.old.returned) ≤ length self.old.given }
        ensures takes { TakesBack (peering_of self.old) (connection_of conn) (peering_of self.new) }

        // It stands behind those that were handed back before.
        ensures stands { self.new ≡ record self.old { returned = self.old.returned ++ conn ∷ [] } }
    {
        let _ = self.returned.push(conn);
    }
}
