ghost use Rattle.std.specs.Prelude.{◌≡◌, ◌<◌, ◌≤◌, ℕ, [], length};
ghost use Rattle.std.specs.Option.{option_map};
ghost use Rattle.areanode.specs.Trees.{IsTreeDepth};
ghost use Rattle.core_steps.specs.declared.sizes.TheConstants.{TABLE_WORDS};
ghost use Rattle.core_seats.specs.Nexts.{the_next};
ghost use Rattle.ruled_words.specs.Starts.{fixed_by};
ghost use Rattle.ruled_words.specs.Going.{IsAtRest, view_looked};
ghost use Rattle.ruled_words.specs.Sights.{with_one_made, sight_made, with_one_ended};
ghost use Rattle.ruled_words.specs.Plays.{IsSoundSight};
ghost use Rattle.ruled_words.specs.Passes.{sight_of, next_of_pass, word_after, IsReady, HasGone};
ghost use Rattle.ruled_words.specs.WordSteps.{word_by, MayBe};
ghost use Rattle.ruled_words.specs.GivingUp.{quitting_pass};
ghost use Rattle.ruled_words.specs.Hands.{IsPlain, given_to, pass_beside, pass_keeping, plain_pass};
ghost use Rattle.entity_recs.specs.Commands.{command_of};

use crate::rule::key::{TableSeat, Words};
use crate::setting::Setting;
use crate::steps::one_step::step_as;
use crate::steps::seats::{end, look, make};
use crate::word_step::WordStep;
use entity_recs::{Action, Cmd, Effect};
use std::marker::{Brand, Model};

/// A pass's place at the table, its number, and what it knows of the table. What the place has in view is known to
/// clauses alone.
#[derive(Drop)]
pub struct Hand {
    pub(crate) place: TableSeat,
    pub(crate) setting: Setting,
    pub(crate) number: u8,
}

impl Model for Hand {
    ghost use Rattle.ruled_words.specs.Passes.{PassView};
    ghost use Rattle.ruled_words.specs.Hands.{hand_view, IsAtPlace};

    ghost Value = { PassView };

    ghost view = { λ h. hand_view h.place h.setting h.number };

    ghost invariant = { λ h. IsAtPlace h.place h.setting h.number };
}

impl Hand {
    /// The place.
    pub(crate) fn into_table_seat(self) -> TableSeat
        ensures { (result.table_id ≡ self.table) × (result.me ≡ (sight_of self, [])) }
    {
        self.place
    }

    /// The pass's number.
    pub fn number(&self) -> u8
        ensures { result ≡ self.now.number }
    {
        self.number
    }

    /// What the pass knows of the table.
    pub fn setting(&self) -> Setting
        ensures value { result ≡ self.now.setting }
        ensures depth { IsTreeDepth self.now.setting.depth }
    {
        self.setting
    }

    /// The hand makes the next step of its pass, where this command was given and isn't begun, it is to give up or not,
    /// and this effect is kept. It gives the word that was found.
    pub(crate) fn step_beside<A: Action>(
        &mut self,
        words: &Words<A>,
        given: &Option<Cmd>,
        quits: bool,
        effect: &Option<Effect>,
        word: usize,
        step: WordStep,
    ) -> u64
        requires ready { IsReady (fixed_by A.meaning words.now.key.action.value words.now.key.world.value)
            (length words.now.key.rooms.items) words.now.table_id (pass_beside self.old (option_map command_of given.now) quits effect.now)
            self.old word }
        requires wide { words.now.table_id.words ≡ TABLE_WORDS }
        requires left { (found : ℕ) → word_after (fixed_by A.meaning words.now.key.action.value
            words.now.key.world.value) (pass_beside self.old (option_map command_of given.now) quits effect.now) found ≡ word_by step found }
        requires may { let F = fixed_by A.meaning words.now.key.action.value words.now.key.world.value in
            let p = pass_beside self.old (option_map command_of given.now) quits effect.now in
            MayBe step F p.view (the_next (next_of_pass F p)) word }
        ensures gone { HasGone (fixed_by A.meaning words.now.key.action.value words.now.key.world.value)
            (length words.now.key.rooms.items) (pass_beside self.old (option_map command_of given.now) quits effect.now) result self.new }
        ensures stored { (new : ℕ) → step ≡ WordStep.Store new → result ≡ new }
    {
        step_as::<A, Brand, (&Option<Cmd>, bool, &Option<Effect>)>(
            words,
            &(given, quits, effect),
            &mut self.place,
            word,
            step,
        )
    }

    /// The hand makes its next step, where nothing but its view says what comes next.
    pub(crate) fn step_on<A: Action>(
        &mut self,
        words: &Words<A>,
        word: usize,
        step: WordStep,
    ) -> u64
        requires ready { IsReady (fixed_by A.meaning words.now.key.action.value words.now.key.world.value)
            (length words.now.key.rooms.items) words.now.table_id self.old self.old word }
        requires wide { words.now.table_id.words ≡ TABLE_WORDS }
        requires left { (found : ℕ) → word_after (fixed_by A.meaning words.now.key.action.value
            words.now.key.world.value) self.old found ≡ word_by step found }
        requires may { let F = fixed_by A.meaning words.now.key.action.value words.now.key.world.value in
            MayBe step F self.old.view (the_next (next_of_pass F self.old)) word }
        ensures gone { HasGone (fixed_by A.meaning words.now.key.action.value words.now.key.world.value)
            (length words.now.key.rooms.items) self.old result self.new }
        ensures plain { IsPlain self.old × IsPlain self.new }
        ensures stored { (new : ℕ) → step ≡ WordStep.Store new → result ≡ new }
    {
        step_as::<A, Brand, ()>(words, &(), &mut self.place, word, step)
    }

    /// The hand makes its first step for a command, a load.
    pub(crate) fn begin_on<A: Action>(&mut self, words: &Words<A>, cmd: &Cmd, word: usize) -> u64
        requires ready { IsReady (fixed_by A.meaning words.now.key.action.value words.now.key.world.value)
            (length words.now.key.rooms.items) words.now.table_id (given_to (plain_pass self.old) (command_of cmd.now)) self.old word }
        requires wide { words.now.table_id.words ≡ TABLE_WORDS }
        requires left { (found : ℕ) → word_after (fixed_by A.meaning words.now.key.action.value
            words.now.key.world.value) (given_to (plain_pass self.old) (command_of cmd.now)) found ≡ found }
        ensures gone { HasGone (fixed_by A.meaning words.now.key.action.value words.now.key.world.value)
            (length words.now.key.rooms.items) (given_to (plain_pass self.old) (command_of cmd.now)) result self.new }
        ensures plain { IsPlain self.old × IsPlain self.new }
    {
        step_as::<A, Brand, Cmd>(words, cmd, &mut self.place, word, WordStep::Load)
    }

    /// The hand makes the step that comes next with this effect of its command.
    pub(crate) fn resolve_on<A: Action>(
        &mut self,
        words: &Words<A>,
        effect: &Effect,
        word: usize,
        step: WordStep,
    ) -> u64
        requires ready { IsReady (fixed_by A.meaning words.now.key.action.value words.now.key.world.value)
            (length words.now.key.rooms.items) words.now.table_id (pass_keeping self.old effect.now) self.old word }
        requires wide { words.now.table_id.words ≡ TABLE_WORDS }
        requires left { (found : ℕ) → word_after (fixed_by A.meaning words.now.key.action.value
            words.now.key.world.value) (pass_keeping self.old effect.now) found ≡ word_by step found }
        requires may { let F = fixed_by A.meaning words.now.key.action.value words.now.key.world.value in
            MayBe step F self.old.view (the_next (next_of_pass F (pass_keeping self.old effect.now))) word }
        ensures gone { HasGone (fixed_by A.meaning words.now.key.action.value words.now.key.world.value)
            (length words.now.key.rooms.items) (pass_keeping self.old effect.now) result self.new }
        ensures plain { IsPlain self.old × IsPlain self.new }
        ensures stored { (new : ℕ) → step ≡ WordStep.Store new → result ≡ new }
    {
        step_as::<A, Brand, Effect>(words, effect, &mut self.place, word, step)
    }

    /// The hand makes the step that comes next where giving up begins with it, or doesn't.
    pub(crate) fn yield_on<A: Action>(
        &mut self,
        words: &Words<A>,
        begins: bool,
        word: usize,
        step: WordStep,
    ) -> u64
        requires ready { IsReady (fixed_by A.meaning words.now.key.action.value words.now.key.world.value)
            (length words.now.key.rooms.items) words.now.table_id (quitting_pass self.old begins) self.old word }
        requires wide { words.now.table_id.words ≡ TABLE_WORDS }
        requires left { (found : ℕ) → word_after (fixed_by A.meaning words.now.key.action.value
            words.now.key.world.value) (quitting_pass self.old begins) found ≡ word_by step found }
        requires may { let F = fixed_by A.meaning words.now.key.action.value words.now.key.world.value in
            MayBe step F self.old.view (the_next (next_of_pass F (quitting_pass self.old begins))) word }
        ensures gone { HasGone (fixed_by A.meaning words.now.key.action.value words.now.key.world.value)
            (length words.now.key.rooms.items) (quitting_pass self.old begins) result self.new }
        ensures plain { IsPlain self.old × IsPlain self.new }
        ensures stored { (new : ℕ) → step ≡ WordStep.Store new → result ≡ new }
    {
        step_as::<A, Brand, bool>(words, &begins, &mut self.place, word, step)
    }

    /// The hand looks at the count of commits, with no command in hand.
    pub(crate) fn look_on<A: Action>(&mut self, words: &Words<A>) -> u64
        requires table { (self.old.table ≡ words.now.table_id) × (words.now.table_id.words ≡ TABLE_WORDS) }
        requires rests { IsAtRest self.old.view }
        ensures hand { self.new ≡ record self.old { view = view_looked result self.old.view } }
        ensures seen { self.old.view.seen ≤ result }
        ensures sound_sight { IsSoundSight (fixed_by A.meaning words.now.key.action.value words.now.key.world.value)
            (length words.now.key.rooms.items) (sight_of self.new) }
    {
        look(words, &mut self.place)
    }

    /// The hand of the seat that is made next from this one, which is the first and rests.
    pub(crate) fn make<A: Action>(&mut self, words: &Words<A>, number: u8, room: u32) -> Hand
        requires table { (self.old.table ≡ words.now.table_id) × (words.now.table_id.words ≡ TABLE_WORDS) }
        requires rests { IsAtRest self.old.view }
        requires first { self.old.number ≡ 0 }
        requires number { number ≡ self.old.view.made }
        requires more { self.old.view.made < length words.now.key.rooms.items }
        ensures table { (self.new.table ≡ self.old.table) × (result.table ≡ self.old.table) }
        ensures setting { (self.new.setting ≡ self.old.setting) × (result.setting ≡ self.old.setting) }
        ensures first { sight_of self.new ≡ with_one_made (sight_of self.old) }
        ensures made { sight_of result ≡ sight_made room (sight_of self.old) }
        ensures plain { IsPlain self.new × IsPlain result }
    {
        let place = make(words, &mut self.place, room);
        let setting = self.setting;
        Hand {
            place,
            setting,
            number,
        }
    }

    /// The seat of another hand that rests is ended into that of this one, which is the first.
    pub(crate) fn end<A: Action>(&mut self, words: &Words<A>, other: Hand)
        requires table { (self.old.table ≡ words.now.table_id) × (other.table ≡ words.now.table_id)
            × (words.now.table_id.words ≡ TABLE_WORDS) }
        requires rests { IsAtRest self.old.view × IsAtRest other.view }
        requires first { self.old.number ≡ 0 }
        ensures table { self.new.table ≡ self.old.table }
        ensures sight { sight_of self.new ≡ with_one_ended (sight_of self.old) (sight_of other) }
    {
        end(words, &mut self.place, other.into_table_seat());
    }
}
