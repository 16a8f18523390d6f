//! Nodes.
ghost use Rattle.std.specs.Prelude.{◌≡◌, [], IfOk, IsTrue, OnOk, OnErr, None, Some, false};
ghost use Rattle.std.specs.Option.{option_copied};
ghost use Rattle.lio_cells.specs.State.{answer, grants, ready, state_after};
ghost use Rattle.lio_cells.specs.Room.{room_for};
ghost use Rattle.lio_cells.specs.Node.{IsKept, MayServe, at_rest, node_of, served_node};
ghost use Rattle.lio_cells.specs.Node.{takes_part, with_waiter};

use crate::log::Log;
use crate::room::Room;
use crate::state::State;
use crate::waiter::{Waiter, Waiters};
use crate::wish::Wish;
use crate::{ready, reply, reserve, served};
use lio_clauses::{NoMemory, assign, beside};
use lio_values::{Act, Entry, Reply};
use std::alloc::Global;
use std::marker::Model;

/// A node: what it holds, the entries that it has served, who waits at it, and what it keeps ready
/// for a turn, so that the turn takes no memory once it has its ticket. Its state is what its
/// entries make of the state that it began with, their tickets rise, and nobody waits at it for
/// what it grants.
#[derive(Drop)]
pub struct Node {
    state: State,
    room: Room,
    log: Log,
    waiters: Waiters,
}

impl Model for Node {
    ghost use Rattle.lio_cells.specs.Node.{IsKept, NodeState};
    ghost use Rattle.lio_cells.specs.Log.{KeepsFirst, first_of};
    ghost use Rattle.lio_values.specs.ForestCode.{forest_code};
    ghost use Rattle.std.specs.Coded.{codes};

    ghost Value = { NodeState };

    ghost coded = { Prim.hlevel (codes, forest_code) };

    ghost view = { λ n. record {
      state = n.state;
      first = first_of n.log.first n.state;
      log = n.log.served;
      waiters = n.waiters;
      room = n.room;
      pending = n.log.pending;
    } };

    ghost invariant = { λ n. IsKept (record {
      state = n.state;
      first = first_of n.log.first n.state;
      log = n.log.served;
      waiters = n.waiters;
      room = n.room;
      pending = n.log.pending;
    }) × KeepsFirst n.log };
}

impl Node {
    /// A node of this state, which has served nothing.
    pub fn of(alloc: Global, state: State) -> Node
        ensures { result ≡ node_of state }
    {
        Node {
            state,
            room: Room::Nothing,
            log: Log::new(alloc),
            waiters: Waiters::new(alloc),
        }
    }

    /// An equal node, which keeps nothing ready.
    pub fn copy(&self, alloc: Global) -> Result<Node, NoMemory>
        ensures { IfOk result (λ node. node ≡ at_rest self.now) }
    {
        let state = self.state.copy(alloc)?;
        let (state, log) = beside(state, self.log.copy(alloc))?;
        let (state, log, waiters) = match self.waiters.copy(alloc) {
            Ok(waiters) => (state, log, waiters),
            Err(error) => {
                drop(state);
                drop(log);
                return Err(error);
            }
        };
        Ok(Node {
            state,
            room: Room::Nothing,
            log,
            waiters,
        })
    }

    /// What it holds: what its log makes of the state that it began with.
    pub fn state(&self) -> &State
        ensures state { result.now ≡ self.now.state }
        ensures kept { IsKept self.now }
    {
        &self.state
    }

    /// The entries that it has served, in order.
    pub fn log(&self) -> &[Entry]
        ensures log { result.now ≡ self.now.log }
        ensures kept { IsKept self.now }
    {
        self.log.served()
    }

    /// Who waits at it.
    pub fn waiters(&self) -> &[Waiter]
        ensures waiters { result.now ≡ self.now.waiters }
        ensures kept { IsKept self.now }
    {
        self.waiters.as_slice()
    }

    /// Whether it is ready for the act.
    pub fn ready(&self, act: &Act) -> bool
        ensures { result ≡ ready self.now.state act.now }
    {
        ready::ready(&self.state, act)
    }

    /// Whether it gives what a task at its access wishes for.
    pub fn grants(&self, wish: Wish) -> bool
        ensures { result ≡ grants self.now.state wish }
    {
        ready::grants(&self.state, wish)
    }

    /// What it answers the act.
    pub fn answer(&self, alloc: Global, act: &Act) -> Result<Reply, NoMemory>
        requires { IsTrue (ready self.now.state act.now) }
        ensures { IfOk result (λ reply. reply ≡ answer self.now.state act.now) }
    {
        reply::answer(alloc, &self.state, act)
    }

    /// Keeps nothing ready for the state.
    #[inline(always)]
    fn clear_room(&mut self)
        ensures { self.new ≡ record self.old { room = Room.Nothing } }
    {
        if !matches!(self.room, Room::Nothing) {
            assign(&mut self.room, Room::Nothing);
        }
    }

    /// Takes the memory that the state needs for the act, where nothing is kept ready for it. After
    /// a refusal all is as before.
    #[inline(never)]
    fn reserve_room(&mut self, alloc: Global, act: &Act) -> Result<(), NoMemory>
        requires { self.old.room ≡ Room.Nothing }
        ensures ok { OnOk result
            (self.new ≡ record self.old { room = room_for self.old.state act.now }) }
        ensures err { OnErr result (self.new ≡ self.old) }
    {
        match reserve::room_for(alloc, &self.state, act)? {
            Room::Nothing => {}
            room => assign(&mut self.room, room),
        }
        Ok(())
    }

    /// Takes the memory that the state needs for the act. After a refusal nothing is kept ready for
    /// the state; all else is as before.
    #[inline(always)]
    pub fn reserve_state(&mut self, alloc: Global, act: &Act) -> Result<(), NoMemory>
        ensures ok { OnOk result
            (self.new ≡ record self.old { room = room_for self.old.state act.now }) }
        ensures err { OnErr result (self.new ≡ record self.old { room = Room.Nothing }) }
    {
        self.clear_room();
        if reserve::needs_no_room(act) {
            return Ok(());
        }
        self.reserve_room(alloc, act)
    }

    /// Keeps no entry ready.
    #[inline(always)]
    fn clear_pending(&mut self)
        ensures { self.new ≡ record self.old { pending = None } }
    {
        self.log.clear_pending();
    }

    /// Keeps a copy of an entry ready, last in the log. After a refusal all is as before.
    #[inline(always)]
    fn keep_entry(&mut self, alloc: Global, entry: &Entry) -> Result<(), NoMemory>
        requires { self.old.pending ≡ None }
        ensures ok { OnOk result (self.new ≡ record self.old { pending = Some entry.now }) }
        ensures err { OnErr result (self.new ≡ self.old) }
    {
        self.log.keep(alloc, &self.state, entry)
    }

    /// Keeps ready what a turn with this entry needs in this node: what the state needs for its
    /// act, and a copy of the entry with a place in the log. After a refusal the node keeps nothing
    /// ready. All else is as before.
    pub fn reserve(&mut self, alloc: Global, entry: &Entry) -> Result<(), NoMemory>
        ensures ok { OnOk result (self.new ≡ record self.old {
          room = room_for self.old.state entry.now.act;
          pending = Some entry.now;
        }) }
        ensures err { OnErr result (self.new ≡ at_rest self.old) }
    {
        self.clear_pending();
        self.reserve_state(alloc, &entry.act)?;
        match self.keep_entry(alloc, entry) {
            Ok(()) => Ok(()),
            Err(error) => {
                self.clear_room();
                Err(error)
            }
        }
    }

    /// The entry of the turn for which it is ready, if there is one.
    pub fn pending(&self) -> Option<&Entry>
        ensures { option_copied result ≡ self.now.pending }
    {
        self.log.pending()
    }

    /// Serves the turn for which it is ready, with its ticket: its act changes the state by what
    /// was reserved for it, and its entry comes last in the log. It takes no memory.
    pub fn serve(&mut self, ticket: u64)
        requires { MayServe self.old ticket }
        ensures { (entry : Entry) → self.old.pending ≡ Some entry
            → self.new ≡ served_node self.old entry ticket }
    {
        served::serve(&mut self.state, &mut self.room);
        self.log.serve(ticket);
    }

    /// Becomes a new node, of the state that the act makes by what was reserved for it. It takes no
    /// memory.
    pub fn renew(&mut self, act: &Act)
        requires reserved { self.old.room ≡ room_for self.old.state act.now }
        requires takes_part { IsTrue (takes_part self.old.state act.now) }
        ensures { self.new ≡ node_of (state_after self.old.state act.now) }
    {
        self.log.clear();
        self.waiters.clear();
        served::serve(&mut self.state, &mut self.room);
    }

    /// Lets a task wait at it for what it doesn't grant, unless the task does already. After a
    /// refusal all is as before.
    pub fn park(&mut self, waiter: Waiter) -> Result<(), NoMemory>
        requires { grants self.old.state waiter.wish ≡ false }
        ensures ok { OnOk result (self.new
            ≡ record self.old { waiters = with_waiter self.old.waiters waiter }) }
        ensures err { OnErr result (self.new ≡ self.old) }
    {
        self.waiters.add(waiter)
    }

    /// Takes out all who wait at it. It takes no memory.
    pub fn take_waiters(&mut self) -> Waiters
        ensures all { result ≡ self.old.waiters }
        ensures none { self.new ≡ record self.old { waiters = [] } }
    {
        self.waiters.take()
    }
}
