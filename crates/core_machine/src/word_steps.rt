ghost use Rattle.std.specs.Prelude.{◌≡◌, ◌<◌, ℕ, List, ◌∷◌};
ghost use Rattle.std.specs.Option.{option_map};
ghost use Rattle.core_steps.specs.Cells.{node_index, links_index, cell_index, state_index, cell_of};
ghost use Rattle.core_steps.specs.declared.sizes.TheConstants.{TABLE_STATES, TABLE_WORDS};
ghost use Rattle.core_steps.specs.Steps as steps;
ghost use Rattle.core_steps.specs.Machine.{kind_of_store, index_of_store};
ghost use Rattle.core_machine.specs.Points.{store_of};

use crate::point::{Cell, Store};
use core_steps::{Step, StepKind, list_word, node_word, record_word, state_word};

/// The step of a seat on the word of a node.
pub fn node_step(number: u8, node: u8, kind: StepKind) -> Step
    ensures { result ≡ record { seat = number; word = node_index node; kind = kind } }
{
    Step {
        seat: number,
        word: node_word(node),
        kind,
    }
}

/// The step of a seat on the list word of a node.
pub fn list_step(number: u8, node: u8, kind: StepKind) -> Step
    ensures { result ≡ record { seat = number; word = links_index node; kind = kind } }
{
    Step {
        seat: number,
        word: list_word(node),
        kind,
    }
}

/// The step that loads the `k`-th of the six words of the player in this slot.
pub fn load_step(number: u8, slot: u8, k: usize) -> Step
    ensures { result ≡ record { seat = number; word = cell_index (cell_of slot k); kind = StepKind.Load } }
{
    let word = if k < 5 {
        record_word(slot) + k as u16
    } else {
        state_word(u16::from(slot))
    };
    Step {
        seat: number,
        word,
        kind: StepKind::Load,
    }
}

/// The step that loads the state word of the first of these things, if any.
pub fn state_step(number: u8, ids: &[u16]) -> Option<Step>
    requires { (id : ℕ) (rest : List ℕ) → ids.now ≡ id ∷ rest → id < TABLE_STATES }
    ensures { result ≡ option_map (λ id. record { seat = number; word = state_index id; kind = StepKind.Load })
        (steps.first ids.now) }
{
    let &[id, ..] = ids else {
        return None;
    };
    Some(Step {
        seat: number,
        word: state_word(id),
        kind: StepKind::Load,
    })
}

/// The step that takes the first of these nodes, if any.
pub fn take_step(number: u8, nodes: &[u8]) -> Option<Step>
    ensures { result ≡ option_map (λ node. record { seat = number; word = node_index node; kind = StepKind.Take })
        (steps.first nodes.now) }
{
    let &[node, ..] = nodes else {
        return None;
    };
    Some(node_step(number, node, StepKind::Take))
}

/// The first of these inner nodes, or of these leaves where no inner node is left.
pub fn first_of_two(inner: &[u8], leaves: &[u8]) -> Option<u8>
    ensures { result ≡ steps.first_of_two inner.now leaves.now }
{
    if let &[node, ..] = inner {
        return Some(node);
    }
    let &[node, ..] = leaves else {
        return None;
    };
    Some(node)
}

/// The step that gives back the first of these inner nodes, or of these leaves where no inner node is left, if any.
pub fn give_step(number: u8, inner: &[u8], leaves: &[u8]) -> Option<Step>
    ensures { result ≡ option_map (λ node. record {
      seat = number;
      word = node_index node;
      kind = StepKind.GiveBack;
    }) (steps.first_of_two inner.now leaves.now) }
{
    match first_of_two(inner, leaves) {
        Some(node) => Some(node_step(number, node, StepKind::GiveBack)),
        None => None,
    }
}

/// The step that loads the next word of the first of these players, of which `k` words are loaded, if any.
pub fn player_step(number: u8, players: &[u8], k: usize) -> Option<Step>
    ensures { result ≡ option_map (λ slot. record {
      seat = number;
      word = cell_index (cell_of slot k);
      kind = StepKind.Load;
    }) (steps.first players.now) }
{
    let &[slot, ..] = players else {
        return None;
    };
    Some(load_step(number, slot, k))
}

/// The step that makes a store.
pub fn store_step(number: u8, store: Store) -> Step
    requires { index_of_store (store_of store) < TABLE_WORDS }
    ensures { result ≡ record {
      seat = number;
      word = index_of_store (store_of store);
      kind = kind_of_store (store_of store);
    } }
{
    match store {
        Store::Clear(node) | Store::Link(node) => list_step(number, node, StepKind::Bit),
        Store::Put(Cell::Body(slot, k), _) => Step {
            seat: number,
            word: record_word(slot) + u16::from(k),
            kind: StepKind::Store,
        },
        Store::Put(Cell::State(id), _) => Step {
            seat: number,
            word: state_word(id),
            kind: StepKind::Store,
        },
    }
}
