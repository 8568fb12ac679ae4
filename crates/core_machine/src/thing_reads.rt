use arena_geo::Region;
use core_seats::Rules;
use entity_recs::{Action, NewState};
use std::alloc::{AllocError, Global};
use std::marker::Model;

/// The states of things of the map that a seat has loaded for its command, and the things whose states it is still to
/// load, with room for a number of things that was given when the lists were made. No call after [`ThingReads::new`]
/// takes memory.
#[derive(Drop)]
pub struct ThingReads {
    states: Vec<NewState>,
    ids: Vec<u16>,
    from: usize,
    room: usize,
}

impl Model for ThingReads {
    ghost use Rattle.std.specs.Prelude.{drop, vec_capacity};
    ghost use Rattle.core_machine.specs.ThingReads.{ReadsView, AreReads};

    ghost Value = { ReadsView };

    ghost view = { λ t. record { room = t.room; states = t.states.items; ids = drop t.from t.ids.items } };

    ghost invariant = { λ t. AreReads t.room (vec_capacity t.states) (vec_capacity t.ids) t.from t.ids.items };
}

impl ThingReads {
    ghost use Rattle.std.specs.Prelude.{◌≡◌, ◌≤◌, ◌<◌, [], ◌∷◌, length, vec_capacity, drop, MatchOption, IfOk};
    ghost use Rattle.core_steps.specs.Reads.{things_in};
    ghost use Rattle.core_seats.specs.Shown.{fixed_of};

    /// Nothing read and nothing to be read, with room for `room` things. The only error is that memory is refused.
    pub fn new(alloc: Global, room: usize) -> Result<ThingReads, AllocError>
        ensures { IfOk result (λ t. t ≡ record { room = room; states = []; ids = [] }) }
    {
        Ok(ThingReads {
            states: Vec::with_capacity(alloc, room)?,
            ids: Vec::with_capacity(alloc, room)?,
            from: 0,
            room,
        })
    }

    /// The states that are loaded, the newest first.
    pub fn states(&self) -> &[NewState]
        ensures { result.now ≡ self.now.states }
    {
        self.states.as_slice()
    }

    /// The things whose states are still to be loaded, in the order in which they come.
    pub fn ids(&self) -> &[u16]
        ensures { result.now ≡ self.now.ids }
    {
        &self.ids.as_slice()[self.from..]
    }

    /// Lets all states go that are loaded.
    pub fn forget_states(&mut self)
        ensures { self.new ≡ record self.old { states = [] } }
    {
        self.states.clear();
    }

    /// The things of the map whose absolute box touches a region are those whose states are still to be loaded, in
    /// rising id, in place of those that were.
    pub fn list_things<A: Action>(&mut self, rules: &Rules<A>, region: &Region)
        requires { length (fixed_of A.meaning rules.now).start.ids ≤ self.old.room }
        ensures { self.new ≡ record self.old { ids = things_in (fixed_of A.meaning rules.now) region.now } }
    {
        self.ids.clear();
        self.from = 0;
        rules.put_things(region, &mut self.ids);
    }

    /// Takes out the first of the things whose states are to be loaded, if there is one.
    pub fn next_id(&mut self) -> Option<u16>
        ensures { MatchOption result ((self.old.ids ≡ []) × (self.new ≡ self.old))
            (λ id. self.old ≡ record self.new { ids = id ∷ self.new.ids }) }
    {
        let id = self.ids.as_slice().get(self.from).copied()?;
        self.from += 1;
        Some(id)
    }

    /// Puts in a state that was loaded, as the newest.
    pub fn push_state(&mut self, state: NewState)
        requires { length self.old.states < self.old.room }
        ensures { self.new ≡ record self.old { states = state ∷ self.old.states } }
    {
        // There is room, so this takes no memory.
        let _ = self.states.insert(0, state);
    }
}
