use crate::effect::NewState;
use arrayvec::ArrayVec;
use std::marker::Model;

/// How many ids or states a list holds at most.
pub const LIST_LEN: usize = 8;

/// A list of at most [`LIST_LEN`] ids, which lie in the value itself and take no memory.
#[derive(Debug, Drop)]
pub struct IdList {
    ids: ArrayVec<u16, LIST_LEN>,
}

impl Model for IdList {
    ghost use Rattle.std.specs.Prelude.{ℕ, List};

    ghost Value = { List ℕ };

    ghost view = { λ l. l.ids.items };
}

impl IdList {
    ghost use Rattle.std.specs.Prelude.{◌≡◌, ◌<◌, ◌≤◌, ◌↔◌, [], ◌∷◌, ◌++◌, length, IsTrue};
    ghost use Rattle.std.specs.Bool.{OnTrue, OnFalse};

    /// No ids.
    pub fn new() -> Self
        ensures { result ≡ [] }
    {
        IdList {
            ids: ArrayVec::new(),
        }
    }

    /// The ids in order.
    pub fn as_slice(&self) -> &[u16]
        ensures value { result.now ≡ self.now }
        ensures bound { length result.now ≤ 8 }
    {
        self.ids.as_slice()
    }

    /// Puts an id last. `false` exactly where there are [`LIST_LEN`] already; the list is then unchanged.
    pub fn push(&mut self, id: u16) -> bool
        ensures room { IsTrue result ↔ (length self.old < 8) }
        ensures pushed { OnTrue result (self.new ≡ self.old ++ id ∷ []) }
        ensures unchanged { OnFalse result (self.new ≡ self.old) }
    {
        self.ids.try_push(id).is_ok()
    }

    /// Puts an id first. `false` exactly where there are [`LIST_LEN`] already; the list is then unchanged.
    pub fn push_first(&mut self, id: u16) -> bool
        ensures room { IsTrue result ↔ (length self.old < 8) }
        ensures pushed { OnTrue result (self.new ≡ id ∷ self.old) }
        ensures unchanged { OnFalse result (self.new ≡ self.old) }
    {
        self.ids.try_insert(0, id).is_ok()
    }
}

/// A list of at most [`LIST_LEN`] new states, which lie in the value itself and take no memory.
#[derive(Debug, Drop)]
pub struct StateList {
    states: ArrayVec<NewState, LIST_LEN>,
}

impl Model for StateList {
    ghost use Rattle.std.specs.Prelude.{List};
    ghost use Rattle.entity_recs.specs.declared.effect.NewState.{NewState};

    ghost Value = { List NewState };

    ghost view = { λ l. l.states.items };
}

impl StateList {
    ghost use Rattle.std.specs.Prelude.{◌≡◌, ◌<◌, ◌≤◌, ◌↔◌, [], ◌∷◌, ◌++◌, length, IsTrue};
    ghost use Rattle.std.specs.Bool.{OnTrue, OnFalse};

    /// No states.
    pub fn new() -> Self
        ensures { result ≡ [] }
    {
        StateList {
            states: ArrayVec::new(),
        }
    }

    /// The states in order.
    pub fn as_slice(&self) -> &[NewState]
        ensures value { result.now ≡ self.now }
        ensures bound { length result.now ≤ 8 }
    {
        self.states.as_slice()
    }

    /// Puts a state last. `false` exactly where there are [`LIST_LEN`] already; the list is then unchanged.
    pub fn push(&mut self, new: NewState) -> bool
        ensures room { IsTrue result ↔ (length self.old < 8) }
        ensures pushed { OnTrue result (self.new ≡ self.old ++ new ∷ []) }
        ensures unchanged { OnFalse result (self.new ≡ self.old) }
    {
        self.states.try_push(new).is_ok()
    }
}

#[cfg(test)]
mod tests {
    use super::*;
    use std::test::Fail;

    #[test]
    fn lists_hold_eight(rt: HostRuntime) -> Result<(), Fail> {
        let mut ids = IdList::new();
        let mut states = StateList::new();
        for id in 64..72 {
            assert!(rt; ids.push(id));
            assert!(rt; states.push(NewState { id, state: 70_000 }));
        }
        assert!(rt; !ids.push(72));
        assert!(rt; !states.push(NewState { id: 72, state: 0 }));
        assert_eq!(rt; ids.as_slice(), [64, 65, 66, 67, 68, 69, 70, 71].as_slice());
        assert_eq!(rt; states.as_slice().len(), 8);
        Ok(())
    }

    #[test]
    fn an_id_is_put_first(rt: HostRuntime) -> Result<(), Fail> {
        let mut ids = IdList::new();
        for id in [7, 6, 5, 4, 3, 2, 1, 0] {
            assert!(rt; ids.push_first(id));
        }
        assert!(rt; !ids.push_first(8));
        assert_eq!(rt; ids.as_slice(), [0, 1, 2, 3, 4, 5, 6, 7].as_slice());
        Ok(())
    }
}
