ghost use Rattle.std.specs.Prelude.{◌≡◌, ◌<◌, ◌≤◌, ◌++◌, length, map, All, IfOk};
ghost use Rattle.core_machine.specs.ListRooms.{HasThingsRoom};
ghost use Rattle.core_machine.specs.Cores.{seat_of, fresh_seat, start_seats};

use crate::seat::Seat;
use crate::stepping::make_step;
use crate::words::Words;
use areanode::Tree;
use core_seats::Rules;
use core_steps::{MOST_SEATS, Step};
use entity_recs::{Action, Cmd, Entry, IDS, Rec};
use std::alloc::{AllocError, Global};
use std::marker::Model;
use world_tree::NearList;

// Beyond its arrays the machine has the words of the start, where no step reads or writes. No effect is kept:
// `resolved` asks the action again.
/// The pure core as a machine: the shared words and the seats, each with its view, as plain values. A seat with a
/// command in hand makes one step on one word at a time, and any seat may be the next to make one.
#[derive(Drop)]
pub struct Core<'a, A: Action> {
    rules: Rules<'a, A>,
    words: Words,
    seats: Vec<Seat>,
    near: NearList,
}

/// Adds a seat for each number in `room`, which has room for so many entries.
fn add_seats(seats: &mut Vec<Seat>, alloc: Global, room: &[u32]) -> Result<(), AllocError>
    requires { All HasThingsRoom seats.old.items }
    ensures seats { IfOk result (λ _. map seat_of seats.new.items ≡ map seat_of seats.old.items ++ map
        (λ more. fresh_seat more 0) room.now) }
    ensures things { All HasThingsRoom seats.new.items }
{
    for entries in room {
        seats.push(Seat::new(alloc, *entries, 0, IDS)?)?;
    }
    Ok(())
}

/// A seat for each number in `room`, which has room for so many entries. The others are made from the first.
fn new_seats(alloc: Global, room: &[u32]) -> Result<Vec<Seat>, AllocError>
    requires some { 0 < length room.now }
    requires few { length room.now ≤ MOST_SEATS }
    ensures seats { IfOk result (λ seats. map seat_of seats.items ≡ start_seats room.now) }
    ensures things { IfOk result (λ seats. All HasThingsRoom seats.items) }
{
    let mut seats = Vec::with_capacity(alloc, room.len())?;
    seats.push(Seat::new(alloc, room[0], room.len() as u8, IDS)?)?;
    add_seats(&mut seats, alloc, &room[1..])?;
    Ok(seats)
}

impl<'a, A: Action> Model for Core<'a, A> {
    ghost use Rattle.std.specs.Prelude.{map};
    ghost use Rattle.core_machine.specs.Cores.{CoreView, seat_of};
    ghost use Rattle.core_machine.specs.ListRooms.{IsKept};
    ghost use Rattle.core_seats.specs.Shown.{fixed_of};

    ghost Value = { CoreView A };

    ghost view = { λ c. record { rules = c.rules; words = c.words; seats = map seat_of c.seats.items } };

    ghost invariant = { λ c. IsKept (fixed_of A.meaning c.rules) (record
        { rules = c.rules; words = c.words; seats = map seat_of c.seats.items }) c.seats.items c.near };
}

impl<'a, A: Action> Core<'a, A> {
    ghost use Rattle.std.specs.Prelude.{◌≡◌, ◌≤◌, ◌<◌, ◌==◌, ◌++◌, ◌∷◌, ◌↔◌, ℕ, List, true, false, length, is_some};
    ghost use Rattle.std.specs.Prelude.{if◌then◌else◌, IsTrue, IfOk, map};
    ghost use Rattle.entity_recs.specs.Commands.{command_of};
    ghost use Rattle.entity_recs.specs.Histories.{commands_of};
    ghost use Rattle.core_steps.specs.Steps.{is_taking, refuse_node};
    ghost use Rattle.core_steps.specs.Stands.{IsStart};
    ghost use Rattle.core_steps.specs.Machine.{Next, next_of, next_step_of, machine_after, items_after};
    ghost use Rattle.core_steps.specs.Calls.{MayBeGiven, SomeGoesOn, StandsSomehow, start_machine, with_given};
    ghost use Rattle.core_steps.specs.Calls.{with_quitting, has_command};
    ghost use Rattle.core_seats.specs.Logs.{entries_of};
    ghost use Rattle.core_machine.specs.Cores.{machine_of, IsFree, IsRefused};
    ghost use Rattle.core_seats.specs.Shown.{fixed_of};

    /// The core at the start: over these records, with a seat for each number in `room`, which has room for so many
    /// entries. No command is given, no node is held, and no command is committed.
    pub fn new(
        alloc: Global,
        action: &'a A,
        tree: &Tree,
        start: &[Rec],
        room: &[u32],
    ) -> Result<Core<'a, A>, AllocError>
        requires start { IsStart (fixed_of A.meaning (record
            { action = action.now; tree = tree.now; start = start.now })) }
        requires some { 0 < length room.now }
        requires few { length room.now ≤ MOST_SEATS }
        ensures rules { IfOk result (λ c. c.rules ≡ record
            { action = action.now; tree = tree.now; start = start.now }) }
        ensures seats { IfOk result (λ c. length c.seats ≡ length room.now) }
        ensures machine { (first : ℕ) (others : List ℕ) → room.now ≡ first ∷ others → IfOk result (λ c.
            machine_of (fixed_of A.meaning c.rules) c
            ≡ start_machine (fixed_of A.meaning c.rules) first others) }
    {
        let rules = Rules::new(alloc, action, tree, start)?;
        rules.is_lawful();
        rules.is_ruled();
        let words = Words::of_start(&rules);
        let seats = new_seats(alloc, room)?;
        let near = NearList::new(alloc, IDS)?;
        Ok(Core {
            rules,
            words,
            seats,
            near,
        })
    }

    /// What doesn't change while the seats make their steps.
    pub fn rules(&self) -> &Rules<'a, A>
        ensures { result.now ≡ self.now.rules }
    {
        &self.rules
    }

    /// Gives a seat a command. The seat has none in hand and has room, the command's player is live, and no other seat
    /// has a command of that player in hand.
    pub fn give(&mut self, seat: u8, cmd: Cmd)
        requires { let F = fixed_of A.meaning self.old.rules in
            MayBeGiven F (machine_of F self.old) seat (command_of cmd) }
        ensures rules { self.new.rules ≡ self.old.rules }
        ensures seats { length self.new.seats ≡ length self.old.seats }
        ensures machine { let F = fixed_of A.meaning self.old.rules in
            machine_of F self.new ≡ with_given (machine_of F self.old) seat (command_of cmd) }
    {
        self.seats[usize::from(seat)].given = Some(cmd);
    }

    // By a reference that may change, though the core stays: the action's near records need a list with room, and the
    // core has one.
    /// The seat's next step: none exactly where it has no command in hand. The core stays as it is.
    pub fn next_step(&mut self, seat: u8) -> Option<Step>
        requires { seat < length self.old.seats }
        ensures step { let F = fixed_of A.meaning self.old.rules in
            result ≡ next_step_of F (machine_of F self.old) seat }
        ensures some { let F = fixed_of A.meaning self.old.rules in
            is_some result ≡ has_command (machine_of F self.old) seat }
        ensures same { self.new ≡ self.old }
    {
        let one = &self.seats[usize::from(seat)];
        let effect = one.resolved(&self.rules, &mut self.near);
        one.next_step(&self.rules, seat, &effect)
    }

    /// Makes a step. It is false exactly where `s` isn't the next step of its seat, or it takes a node that another
    /// seat holds. In the first case nothing changes. In the second case only the seat's record of the refused take
    /// changes, and the seat may give up.
    pub fn step(&mut self, s: Step) -> bool
        ensures rules { self.new.rules ≡ self.old.rules }
        ensures seats { length self.new.seats ≡ length self.old.seats }
        ensures done { let F = fixed_of A.meaning self.old.rules in
            IsTrue result ↔ IsFree F (machine_of F self.old) s }
        ensures other { let F = fixed_of A.meaning self.old.rules in
            (next_step_of F (machine_of F self.old) s.seat ≡ Some s → ⊥) → self.new ≡ self.old }
        ensures machine { let F = fixed_of A.meaning self.old.rules in let m = machine_of F
            self.old in
            (next : Next) → next_of F m s.seat ≡ Some next → next_step_of F m s.seat ≡ Some s
            → machine_of F self.new ≡ machine_after F m s.seat next }
        ensures refused { let F = fixed_of A.meaning self.old.rules in let m = machine_of F
            self.old in
            (node : ℕ) → IsRefused F m s node → machine_of F self.new ≡ record m
            { core = refuse_node m.core s.seat node } }
        ensures may_give_up { let F = fixed_of A.meaning self.old.rules in
            next_step_of F (machine_of F self.old) s.seat ≡ Some s → result ≡ false
            → is_taking ((machine_of F self.new).core.view s.seat).point ≡ true }
        ensures logs { let F = fixed_of A.meaning self.old.rules in let m = machine_of F self.old
            in
            (next : Next) (seat : ℕ) → next_of F m s.seat ≡ Some next → next_step_of F m s.seat ≡ Some s
            → ((machine_of F self.new).core.view seat).log ≡ (if seat == s.seat
            then (m.core.view s.seat).log ++ items_after m.core s.seat next else (m.core.view seat).log) }
    {
        let i = usize::from(s.seat);
        if i >= self.seats.len() {
            return false;
        }
        make_step(
            &self.rules,
            &mut self.words,
            &mut self.seats[i],
            &mut self.near,
            s,
        )
    }

    /// The seat is to give up its command, at a take before its commit or where the commit comes next: its next steps
    /// give back what it holds.
    pub fn give_up(&mut self, seat: u8)
        requires { let F = fixed_of A.meaning self.old.rules in
            is_taking ((machine_of F self.old).core.view seat).point ≡ true }
        ensures rules { self.new.rules ≡ self.old.rules }
        ensures seats { length self.new.seats ≡ length self.old.seats }
        ensures machine { let F = fixed_of A.meaning self.old.rules in
            machine_of F self.new ≡ with_quitting (machine_of F self.old) seat }
    {
        self.seats[usize::from(seat)].quits = true;
    }

    /// The entries that the seat has committed, in their order.
    pub fn log(&self, seat: u8) -> &[Entry]
        requires { seat < length self.now.seats }
        ensures { let F = fixed_of A.meaning self.now.rules in
            result.now ≡ entries_of ((machine_of F self.now).core.view seat).log }
    {
        self.seats[usize::from(seat)].log.entries()
    }

    /// The commands that the seat has committed, in their order.
    pub fn commands(&self, seat: u8) -> &[Cmd]
        requires { seat < length self.now.seats }
        ensures { let F = fixed_of A.meaning self.now.rules in
            map command_of result.now ≡ commands_of ((machine_of F self.now).core.view seat).log }
    {
        self.seats[usize::from(seat)].log.commands()
    }

    /// What holds of the core between any two calls: the machine is valid.
    pub fn stands(&self)
        ensures { let F = fixed_of A.meaning self.now.rules in
            StandsSomehow F (machine_of F self.now) }
    {
        // To read a part of the core is to know what its type keeps.
        let _seats = &self.seats;
    }

    /// Where a seat has a command in hand, some seat with a command in hand doesn't wait for a node that another seat
    /// holds.
    pub fn some_seat_goes_on(&self)
        ensures { let F = fixed_of A.meaning self.now.rules in (seat : ℕ)
            → has_command (machine_of F self.now) seat ≡ true
            → SomeGoesOn F (machine_of F self.now) }
    {
        // To read a part of the core is to know what its type keeps.
        let _seats = &self.seats;
    }
}
