ghost use Rattle.std.specs.Prelude.{◌≡◌, ◌≤◌, ◌↔◌, ◌==◌, not, filter, length, IsSome, IfSome};
ghost use Rattle.core_seats.specs.declared.reads.PlayerRead.{PlayerRead};

use crate::lists::players_of;
use crate::point::Point;
use crate::seat::{ListRead, Seat};
use arrayvec::ArrayVec;
use core_seats::{LoadedPlayer, PlayerRead, Queue, Rules, player_words};
use entity_recs::{Action, Cmd, NewState};

/// These words, where they are six.
fn whole(words: &[u64]) -> Option<LoadedPlayer>
    ensures whole { IsSome result ↔ (length words.now ≡ 6) }
    ensures words { IfSome result (λ six. six ≡ words.now) }
{
    let &[a, b, c, d, e, f] = words else {
        return None;
    };
    Some([a, b, c, d, e, f])
}

/// What was loaded of the players but this one.
fn others_than(others: &[PlayerRead], slot: u8) -> ArrayVec<PlayerRead, 64>
    requires { length others.now ≤ 64 }
    ensures { result.items ≡ filter (λ (r : PlayerRead). not (r.slot == slot)) others.now }
{
    let mut kept = ArrayVec::new();
    for read in others {
        if read.slot != slot {
            kept.push(*read);
        }
    }
    kept
}

/// What was loaded of this player is dropped.
fn drop_read(others: &mut ArrayVec<PlayerRead, 64>, slot: u8)
    ensures { others.new.items ≡ filter (λ (r : PlayerRead). not (r.slot == slot)) others.old.items }
{
    if player_words(others.as_slice(), u16::from(slot)).is_some() {
        *others = others_than(others.as_slice(), slot);
    }
}

impl Seat {
    ghost use Rattle.std.specs.Prelude.{◌≡◌, ◌<◌, ◌≤◌, ◌∷◌, [], ◌++◌, ◌==◌, ℕ, List, Some, not, filter, length};
    ghost use Rattle.areanode.specs.declared.sizes.TheConstants.{MOST_NODES};
    ghost use Rattle.entity_recs.specs.Commands.{Command, command_of};
    ghost use Rattle.entity_recs.specs.Actions.{HasPlayer};
    ghost use Rattle.core_steps.specs.Points as core_points;
    ghost use Rattle.core_steps.specs.Nodes.{leaf_nodes};
    ghost use Rattle.core_steps.specs.Reads.{record_read, region_in};
    ghost use Rattle.core_steps.specs.Steps as steps;
    ghost use Rattle.core_seats.specs.declared.reads.PlayerRead.{PlayerRead};
    ghost use Rattle.core_machine.specs.Seats.{view_of, things_room, given_of, hand_of};
    ghost use Rattle.core_seats.specs.Shown.{fixed_of};

    /// The command enters the view with the first word of the own record.
    pub fn begin(&mut self, cmd: Cmd, word: u64)
        ensures view { view_of self.new ≡ steps.view_after_begin (command_of cmd) word (view_of self.old) }
        ensures things { things_room self.new ≡ things_room self.old }
    {
        self.cmd = Some(cmd);
        self.own.clear();
        self.own.push(word);
        self.point = Point::Owning;
    }

    /// The leaves of the own record, which is loaded whole, are wanted.
    fn want_leaves<A: Action>(&mut self, rules: &Rules<A>)
        requires { HasPlayer ((A.meaning rules.now.action).takes) (record_read (hand_of self.old.cmd).slot self.old.own.items)
            (hand_of self.old.cmd) }
        ensures view { let leaves = leaf_nodes (fixed_of A.meaning rules.now)
            (region_in (fixed_of A.meaning rules.now) (hand_of self.old.cmd) self.old.own.items)
            in
            view_of self.new ≡ record (view_of self.old) { wanted = leaves; point = core_points.Taking [] leaves } }
        ensures things { things_room self.new ≡ things_room self.old }
    {
        let region = rules.region(&self.hand(), self.own.as_slice());
        self.wanted = rules.leaves(&region);
        self.queues.got = Queue::new();
        self.queues.rest = self.wanted.copied();
        self.point = Point::Taking;
    }

    /// One more word of the own record was loaded.
    pub fn load_own<A: Action>(&mut self, rules: &Rules<A>, word: u64)
        requires part { length self.old.own.items < 6 }
        requires player { length self.old.own.items ≡ 5 → HasPlayer ((A.meaning rules.now.action).takes)
            (record_read (hand_of self.old.cmd).slot (self.old.own.items ++ word ∷ [])) (hand_of self.old.cmd) }
        ensures view { view_of self.new ≡ steps.view_after_own (fixed_of A.meaning rules.now) word
            (view_of self.old) }
        ensures things { things_room self.new ≡ things_room self.old }
    {
        self.own.push(word);
        if self.own.len() == 6 {
            self.want_leaves(rules);
        }
    }

    /// One more word of the own record was loaded again.
    pub fn load_again<A: Action>(&mut self, rules: &Rules<A>, word: u64)
        requires part { length self.old.again.items < 6 }
        requires player { HasPlayer ((A.meaning rules.now.action).takes) (record_read (hand_of self.old.cmd).slot
            self.old.own.items) (hand_of self.old.cmd) }
        requires things { length (fixed_of A.meaning rules.now).start.ids ≤ things_room self.old }
        ensures view { view_of self.new ≡ steps.view_after_again (fixed_of A.meaning rules.now) word
            (view_of self.old) }
        ensures things { things_room self.new ≡ things_room self.old }
    {
        self.again.push(word);
        if self.again.len() == 6 {
            let region = rules.region(&self.hand(), self.own.as_slice());
            self.queues.plan = rules.plan(&region);
            self.visit_next(rules);
        }
    }

    /// The list word of the entered node was loaded.
    fn load_list<A: Action>(&mut self, rules: &Rules<A>, node: u8, word: u64)
        requires room { length self.old.lists.items < MOST_NODES }
        requires player { HasPlayer ((A.meaning rules.now.action).takes)
            (record_read (hand_of self.old.cmd).slot self.old.own.items) (hand_of self.old.cmd) }
        requires things { length (fixed_of A.meaning rules.now).start.ids ≤ things_room self.old }
        ensures view { view_of self.new ≡ steps.view_after_list (fixed_of A.meaning rules.now) node
            self.old.queues.plan.items word (view_of self.old) }
        ensures things { things_room self.new ≡ things_room self.old }
    {
        self.queues.players = players_of(word, self.hand().slot);
        self.lists.insert(0, ListRead { node, word });
        self.load_under(rules, node);
    }

    /// The first of the players under the node was loaded whole: what was loaded of it earlier is dropped.
    fn load_player<A: Action>(&mut self, rules: &Rules<A>, node: u8, slot: u8, words: LoadedPlayer)
        requires room { length (filter (λ (r : PlayerRead). not (r.slot == slot)) self.old.others.items) < 64 }
        requires whole { length words ≡ 6 }
        requires player { HasPlayer ((A.meaning rules.now.action).takes)
            (record_read (hand_of self.old.cmd).slot self.old.own.items) (hand_of self.old.cmd) }
        requires things { length (fixed_of A.meaning rules.now).start.ids ≤ things_room self.old }
        ensures view { view_of self.new ≡ steps.player_loaded (fixed_of A.meaning rules.now) node
            words slot self.old.queues.players.items self.old.queues.plan.items (view_of self.old) }
        ensures things { things_room self.new ≡ things_room self.old }
    {
        drop_read(&mut self.others, slot);
        self.others.insert(0, PlayerRead { slot, words });
        self.load_under(rules, node);
    }

    /// The state of a thing was loaded, which was the first of those that were left.
    fn load_state(&mut self, id: u16, word: u64)
        requires { length self.old.queues.things.states < things_room self.old }
        ensures view { view_of self.new
            ≡ steps.view_after_state id word self.old.queues.things.ids (view_of self.old) }
        ensures things { things_room self.new ≡ things_room self.old }
    {
        self.queues.things.push_state(NewState { id, state: word });
        self.sensing();
    }

    /// The command that was given, if any, enters the view with the first word of the own record.
    pub(crate) fn begin_given(&mut self, word: u64)
        ensures view { (c : Command) → given_of self.old ≡ Some c
            → view_of self.new ≡ steps.view_after_begin c word (view_of self.old) }
        ensures things { things_room self.new ≡ things_room self.old }
    {
        if let Some(cmd) = self.given {
            self.begin(cmd, word);
        }
    }

    /// The list word of the entered node was loaded.
    pub(crate) fn read_list<A: Action>(&mut self, rules: &Rules<A>, word: u64)
        requires room { length self.old.lists.items < MOST_NODES }
        requires player { HasPlayer ((A.meaning rules.now.action).takes)
            (record_read (hand_of self.old.cmd).slot self.old.own.items) (hand_of self.old.cmd) }
        requires things { length (fixed_of A.meaning rules.now).start.ids ≤ things_room self.old }
        ensures view { (node : ℕ) (plan : List ℕ) → (view_of self.old).point ≡ core_points.Entered node plan → view_of self.new
            ≡ steps.view_after_list (fixed_of A.meaning rules.now) node plan word
            (view_of self.old) }
        ensures things { things_room self.new ≡ things_room self.old }
    {
        if let Point::Entered { node } = self.point {
            self.load_list(rules, node, word);
        }
    }

    /// One more word of the player that is loaded under the present node was loaded.
    pub(crate) fn read_player<A: Action>(&mut self, rules: &Rules<A>, word: u64)
        requires part { (node : ℕ) (part players plan : List ℕ)
            → (view_of self.old).point ≡ core_points.Loading node part players plan
            → length part < 6 }
        requires some { (node : ℕ) (part players plan : List ℕ)
            → (view_of self.old).point ≡ core_points.Loading node part players plan
            → 0 < length players }
        requires room { (node slot : ℕ) (part players plan : List ℕ)
            → (view_of self.old).point ≡ core_points.Loading node part (slot ∷ players) plan
            → length (filter (λ (r : PlayerRead). not (r.slot == slot)) self.old.others.items) < 64 }
        requires player { HasPlayer ((A.meaning rules.now.action).takes)
            (record_read (hand_of self.old.cmd).slot self.old.own.items) (hand_of self.old.cmd) }
        requires things { length (fixed_of A.meaning rules.now).start.ids ≤ things_room self.old }
        ensures view { (node slot : ℕ) (part players plan : List ℕ)
            → (view_of self.old).point ≡ core_points.Loading node part (slot ∷ players) plan
            → view_of self.new ≡ steps.player_loaded (fixed_of A.meaning rules.now) node
            (part ++ word ∷ []) slot players plan
            (view_of self.old) }
        ensures things { things_room self.new ≡ things_room self.old }
    {
        let Point::Loading { node } = self.point else {
            return;
        };
        self.queues.part.push(word);
        let Some(words) = whole(self.queues.part.as_slice()) else {
            return;
        };
        if let Some(slot) = self.queues.players.pop_first() {
            self.load_player(rules, node, slot, words);
        }
    }

    /// The state of the first of the things that are left was loaded.
    pub(crate) fn read_state(&mut self, word: u64)
        requires { length self.old.queues.things.states < things_room self.old }
        ensures view { (id : ℕ) (ids : List ℕ) → (view_of self.old).point ≡ core_points.Sensing (id ∷ ids) → view_of self.new
            ≡ steps.view_after_state id word ids (view_of self.old) }
        ensures things { things_room self.new ≡ things_room self.old }
    {
        if let (Point::Sensing, Some(id)) = (self.point, self.queues.things.next_id()) {
            self.load_state(id, word);
        }
    }
}
