ghost use Rattle.std.specs.Prelude.{◌≡◌, [], ◌∷◌, ◌++◌, map, length};
ghost use Rattle.entity_recs.specs.declared.effect.NewState.{NewState};
ghost use Rattle.core_steps.specs.Cells.{State};
ghost use Rattle.core_steps.specs.Encoding.{words_of};
ghost use Rattle.core_steps.specs.Points as core_points;
ghost use Rattle.core_steps.specs.Points.{body_stores};
ghost use Rattle.core_machine.specs.Points.{store_of};

use crate::point::{Cell, Point, Store, StoreQueue};
use crate::seat::Seat;
use core_seats::{Queue, Rules, read_record};
use core_steps::{PlayerWords, encode};
use entity_recs::{Action, Effect, Entry, Rec, StateList};
use move_journal::same_reply;

/// An effect once more.
pub fn same_effect(effect: &Effect) -> Effect
    ensures { result ≡ effect.now }
{
    let mut states = StateList::new();
    for state in effect.states.as_slice() {
        // The copy has as much room as the list itself.
        let _ = states.push(*state);
    }
    Effect {
        me: effect.me,
        states,
        reply: same_reply(&effect.reply),
    }
}

/// The stores of an effect of the player in this slot, which was linked at the node `old` and is to be linked at `new`:
/// the own bit is cleared, the five words and the state word of the own record are stored, then the listed states in
/// the list's order, and the own bit is set.
fn stores_of(slot: u8, old: u8, new: u8, effect: &Effect) -> StoreQueue
    ensures { map store_of result.items ≡ core_points.Clear old ∷ (body_stores slot 0 (words_of effect.now.me)
        ++ (core_points.Put (State slot) effect.now.me.state
        ∷ (map (λ (s : NewState). core_points.Put (State s.id) s.state) effect.now.states ++ (core_points.Link new ∷ [])))) }
{
    let words = encode(&effect.me);
    let mut stores = own_stores(slot, old, &words, effect.me.state);
    for new_state in effect.states.as_slice() {
        stores.push(Store::Put(Cell::State(new_state.id), new_state.state));
    }
    stores.push(Store::Link(new));
    stores
}

/// The first of these stores: of the own bit and the own words.
fn own_stores(slot: u8, old: u8, words: &PlayerWords, state: u64) -> StoreQueue
    ensures stores { map store_of result.items
        ≡ core_points.Clear old ∷ (body_stores slot 0 words.now ++ (core_points.Put (State slot) state ∷ [])) }
    ensures few { length result.items ≡ 7 }
{
    let [first, second, third, fourth, fifth] = *words;
    let mut stores = Queue::new();
    stores.push(Store::Clear(old));
    stores.push(Store::Put(Cell::Body(slot, 0), first));
    stores.push(Store::Put(Cell::Body(slot, 1), second));
    stores.push(Store::Put(Cell::Body(slot, 2), third));
    stores.push(Store::Put(Cell::Body(slot, 3), fourth));
    stores.push(Store::Put(Cell::Body(slot, 4), fifth));
    stores.push(Store::Put(Cell::State(u16::from(slot)), state));
    stores
}

impl Seat {
    ghost use Rattle.std.specs.Prelude.{◌≡◌, ◌+◌, ◌<◌, ◌^◌, ◌∷◌, ℕ, List, Some, map, length};
    ghost use Rattle.entity_recs.specs.declared.effect.Effect.{Effect};
    ghost use Rattle.entity_recs.specs.Records.{IsRecord};
    ghost use Rattle.entity_recs.specs.Actions.{IsCommand};
    ghost use Rattle.core_steps.specs.Points as core_points;
    ghost use Rattle.core_steps.specs.Reads.{record_read};
    ghost use Rattle.core_steps.specs.Steps as steps;
    ghost use Rattle.core_machine.specs.Seats.{view_of, things_room, hand_of};
    ghost use Rattle.core_seats.specs.Shown.{fixed_of};

    /// The own record as it was loaded again.
    pub fn before(&self) -> Rec
        requires { IsCommand (hand_of self.now.cmd) }
        ensures { result ≡ record_read (hand_of self.now.cmd).slot self.now.again.items }
    {
        read_record(self.hand().slot, self.again.as_slice())
    }

    /// The command is committed at this place with the effect in view, where all its write nodes are held.
    pub(crate) fn commit<A: Action>(&mut self, rules: &Rules<A>, place: u64)
        requires command { IsCommand (hand_of self.old.cmd) }
        requires before { IsRecord (record_read (hand_of self.old.cmd).slot self.old.again.items) }
        requires after { (e : Effect) → self.old.effect ≡ Some e → IsRecord e.me }
        requires room { length self.old.log.items < self.old.log.room }
        requires place { place + 1 < 2 ^ 64 }
        ensures view { (e : Effect) → self.old.effect ≡ Some e → view_of self.new
            ≡ steps.view_after_commit (fixed_of A.meaning rules.now) place e
            self.old.queues.got.items
            (view_of self.old) }
        ensures things { things_room self.new ≡ things_room self.old }
    {
        let cmd = self.hand();
        let before = self.before();
        if let Some(effect) = &self.effect {
            let entry = Entry {
                place,
                slot: cmd.slot,
                seq: cmd.seq,
                reply: same_reply(&effect.reply),
            };
            self.queues.stores = stores_of(
                cmd.slot,
                rules.home(&before),
                rules.home(&effect.me),
                effect,
            );
            self.log.push(cmd, entry);
            self.seen = place + 1;
            self.point = Point::Storing;
        }
    }

    /// The first of the stores that are left was made.
    pub(crate) fn store_made(&mut self)
        ensures view { (nodes : List ℕ) (store : core_points.Store) (stores : List core_points.Store)
            → (view_of self.old).point ≡ core_points.Storing nodes (store ∷ stores)
            → view_of self.new ≡ record (view_of self.old) { point = steps.storing nodes stores } }
        ensures things { things_room self.new ≡ things_room self.old }
    {
        if matches!(self.point, Point::Storing) {
            // It is the store that was made now.
            let _ = self.queues.stores.pop_first();
            self.storing();
        }
    }
}
