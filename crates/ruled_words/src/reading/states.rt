ghost use Rattle.std.specs.Prelude.{◌≡◌, ◌≤◌, ◌+◌, ◌++◌, ◌∷◌, length};
ghost use Rattle.std.specs.Bool.{OnTrue};
ghost use Rattle.std.specs.List.Sorted.{IsStrictlyIncreasing};
ghost use Rattle.entity_recs.specs.Records.{with_state};
ghost use Rattle.core_steps.specs.Points.{Sensing, Resolving};
ghost use Rattle.core_steps.specs.Reads.{region_in, things_in};
ghost use Rattle.core_steps.specs.Steps.{sensing, view_after_state};
ghost use Rattle.core_seats.specs.NearKept.{AreThings, things_loaded};
ghost use Rattle.core_seats.specs.ThingStrips.{AreThingBoxes, MarksThings, TouchesAll};
ghost use Rattle.ruled_words.specs.Hands.{IsOwnHand};
ghost use Rattle.ruled_words.specs.Passes.{fixed_in};
ghost use Rattle.ruled_words.specs.Straight.{in_view};
ghost use Rattle.ruled_words.specs.Sensing.{after_thing};

use crate::hand::Hand;
use crate::shared_words::SharedWords;
use crate::word_step::WordStep;
use arena_geo::{Aabb, Region};
use core_seats::{ThingBits, next_thing};
use core_steps::FIRST_STATE_WORD;
use entity_recs::{Action, Rec};
use world_tree::NearList;

impl<'a, A: Action> SharedWords<'a, A> {
    /// The things of the map at the start, in rising id.
    fn map_things(&self) -> &[Rec]
        ensures things { AreThings (fixed_in A.meaning self.now) result.now }
        ensures rise { IsStrictlyIncreasing (fixed_in A.meaning self.now).start.ids }
    {
        self.rules.map_things()
    }

    /// The absolute boxes of the things of the map at the start, in rising id.
    fn thing_boxes(&self) -> &[Aabb]
        ensures { AreThingBoxes (fixed_in A.meaning self.now) result.now }
    {
        self.rules.thing_boxes()
    }

    /// The bits of the things of the map that touch a region, each by its place among the things; those of others may be
    /// among them.
    fn thing_bits(&self, region: &Region) -> ThingBits
        ensures { MarksThings (fixed_in A.meaning self.now) region.now result }
    {
        self.rules.thing_bits(region)
    }

    /// Loads the state of the thing, which comes next, and gives the thing with that state.
    fn load_thing(&self, hand: &mut Hand, r: &Rec) -> Rec
        requires own { IsOwnHand A.meaning self.now hand.old }
        requires at { hand.old.view.point ≡ Sensing (r.now.id ∷ after_thing hand.old.view.point) }
        ensures own { IsOwnHand A.meaning self.now hand.new }
        ensures view { hand.new ≡ in_view hand.old
            (view_after_state r.now.id result.state (after_thing hand.old.view.point) hand.old.view) }
        ensures thing { result ≡ with_state r.now result.state }
    {
        let word = usize::from(FIRST_STATE_WORD) + usize::from(r.id);
        let state = self.step_hand(hand, word, WordStep::Load);
        // The record is copied whole, not field by field.
        let mut thing = *r;
        thing.state = state;
        thing
    }

    /// Whether it is known at once that the region touches all things of the map.
    fn has_all_things(&self, region: &Region) -> bool
        ensures { OnTrue result (TouchesAll (fixed_in A.meaning self.now) region.now) }
    {
        self.rules.has_all_things(region)
    }

    /// Loads the states of all things of the map, where the region touches all of them.
    fn load_all(&self, hand: &mut Hand, near: &mut NearList)
        requires own { IsOwnHand A.meaning self.now hand.old }
        requires at { let F = fixed_in A.meaning self.now in
            hand.old.view.point ≡ sensing (things_in F (region_in F hand.old.view.cmd hand.old.view.own)) }
        requires all { let F = fixed_in A.meaning self.now in
            TouchesAll F (region_in F hand.old.view.cmd hand.old.view.own) }
        requires few { length near.old.items ≤ 64 }
        requires room { 64 + length (fixed_in A.meaning self.now).start.ids ≤ near.old.room }
        ensures own { IsOwnHand A.meaning self.now hand.new }
        ensures view { hand.new ≡ in_view hand.old
            (record hand.old.view { states = hand.new.view.states; point = Resolving }) }
        ensures near { let F = fixed_in A.meaning self.now in near.new.items ≡ near.old.items
            ++ things_loaded F (region_in F hand.old.view.cmd hand.old.view.own) hand.new.view.states }
        ensures rise { IsStrictlyIncreasing (fixed_in A.meaning self.now).start.ids }
        ensures room { near.new.room ≡ near.old.room }
    {
        let things = self.map_things();
        for thing in things {
            // The list has room for all players and all things.
            let _ = near.push(self.load_thing(hand, thing));
        }
    }

    /// Loads the states of those things of the map that the region touches, each of which is looked for.
    fn load_touched(&self, hand: &mut Hand, region: &Region, near: &mut NearList)
        requires own { IsOwnHand A.meaning self.now hand.old }
        requires at { let F = fixed_in A.meaning self.now in
            hand.old.view.point ≡ sensing (things_in F (region_in F hand.old.view.cmd hand.old.view.own)) }
        requires region_is { region.now
            ≡ region_in (fixed_in A.meaning self.now) hand.old.view.cmd hand.old.view.own }
        requires few { length near.old.items ≤ 64 }
        requires room { 64 + length (fixed_in A.meaning self.now).start.ids ≤ near.old.room }
        ensures own { IsOwnHand A.meaning self.now hand.new }
        ensures view { hand.new ≡ in_view hand.old
            (record hand.old.view { states = hand.new.view.states; point = Resolving }) }
        ensures near { near.new.items ≡ near.old.items ++ things_loaded (fixed_in A.meaning self.now) region.now
            hand.new.view.states }
        ensures rise { IsStrictlyIncreasing (fixed_in A.meaning self.now).start.ids }
        ensures room { near.new.room ≡ near.old.room }
    {
        let bits = self.thing_bits(region);
        let things = self.map_things();
        let boxes = self.thing_boxes();
        let mut at = 0;
        while let Some(place) = next_thing(boxes, &bits, region, at) {
            // The list has room for all players and all things.
            let _ = near.push(self.load_thing(hand, &things[place]));
            at = place + 1;
        }
    }

    /// Loads the states of the things of the map that the region touches, once all lists are read, and puts the things
    /// with their states after the players that are near, of whom there are at most 64. The list has room for 64 records
    /// and all that live at the start.
    pub(crate) fn load_states(&self, hand: &mut Hand, region: &Region, near: &mut NearList)
        requires own { IsOwnHand A.meaning self.now hand.old }
        requires at { let F = fixed_in A.meaning self.now in
            hand.old.view.point ≡ sensing (things_in F (region_in F hand.old.view.cmd hand.old.view.own)) }
        requires region_is { region.now
            ≡ region_in (fixed_in A.meaning self.now) hand.old.view.cmd hand.old.view.own }
        requires few { length near.old.items ≤ 64 }
        requires room { 64 + length (fixed_in A.meaning self.now).start.ids ≤ near.old.room }
        ensures own { IsOwnHand A.meaning self.now hand.new }
        ensures view { hand.new ≡ in_view hand.old
            (record hand.old.view { states = hand.new.view.states; point = Resolving }) }
        ensures near { near.new.items ≡ near.old.items ++ things_loaded (fixed_in A.meaning self.now) region.now
            hand.new.view.states }
        ensures rise { IsStrictlyIncreasing (fixed_in A.meaning self.now).start.ids }
        ensures room { near.new.room ≡ near.old.room }
    {
        if self.has_all_things(region) {
            self.load_all(hand, near);
        } else {
            self.load_touched(hand, region, near);
        }
    }
}
