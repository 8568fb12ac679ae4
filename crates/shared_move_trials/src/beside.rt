ghost use Rattle.std.specs.Prelude.{◌≡◌, true, length, None};
ghost use Rattle.core_steps.specs.Nodes.{has};
ghost use Rattle.ruled_words.specs.Passes.{fixed_in};
ghost use Rattle.trial_passes.specs.Trials.{IsFree};

use core_trials::Staying;
use entity_recs::{Action, Entry};
use shared_moves::{Again, Gate, GatePoint, Moment, NoGate, Pass, Shared};
use std::marker::Model;
use std::sync::Mutex;
use trial_passes::plain;

/// Pass 1 of two passes, and what its tries of the command of slot 1 gave.
#[derive(Drop)]
pub(crate) struct Second<'a, A: Action> {
    shared: &'a Shared<'a, A>,
    pass: Pass<A>,
    entry: Option<Entry>,
    refused: Option<Again>,
}

impl<'a, A: Action> Model for Second<'a, A> {
    ghost use Rattle.std.specs.Prelude.{◌≡◌, true, length, Option, None};
    ghost use Rattle.entity_recs.specs.declared.effect.Entry.{Entry};
    ghost use Rattle.core_steps.specs.Nodes.{has};
    ghost use Rattle.ruled_words.specs.Passes.{fixed_in};
    ghost use Rattle.trial_passes.specs.Trials.{IsFree};

    ghost Value = { Option Entry };

    ghost view = { λ s. s.entry };

    ghost invariant = { λ s. (length s.shared.now.rooms ≡ 2)
        × (has (fixed_in A.meaning s.shared.now).start.ids 1 ≡ true)
        × (s.entry ≡ None → IsFree (fixed_in A.meaning s.shared.now) (length s.shared.now.rooms)
        s.shared.now.table 1 s.pass) };
}

impl<'a, A: Action> Second<'a, A> {
    /// Tries the command, unless it was run.
    pub(crate) fn attempt(&mut self) {
        if self.entry.is_some() {
            return;
        }
        match self.shared.try_run(&mut self.pass, plain(1), &NoGate) {
            Ok(entry) => self.entry = Some(entry),
            Err(again) => self.refused = Some(again),
        }
    }

    /// The place, the slot and the number of the entry, once the command was run.
    pub(crate) fn ran(&self) -> Option<(u64, u8, u32)> {
        let entry = self.entry.as_ref()?;
        Some((entry.place, entry.slot, entry.seq))
    }

    /// Why the last try that was refused was so.
    pub(crate) fn refused(&self) -> Option<Again> {
        self.refused
    }
}

/// A gate that holds slot 0's move at `Leaves` while pass 1 tries its own.
#[derive(Drop)]
pub(crate) struct Beside<'a, A: Action> {
    second: Mutex<Second<'a, A>>,
}

impl<'a, A: Action> Beside<'a, A> {
    /// A gate with pass 1 of two.
    pub(crate) fn new(shared: &'a Shared<'a, A>, pass: Pass<A>) -> Beside<'a, A>
        requires two { length shared.now.rooms ≡ 2 }
        requires live { has (fixed_in A.meaning shared.now).start.ids 1 ≡ true }
        requires free { IsFree (fixed_in A.meaning shared.now) (length shared.now.rooms)
            shared.now.table 1 pass }
    {
        let second = Second {
            shared,
            pass,
            entry: None,
            refused: None,
        };
        Beside {
            second: Mutex::new(second),
        }
    }

    /// Gives pass 1 back.
    pub(crate) fn into_second(self) -> Second<'a, A> {
        self.second.into_inner()
    }
}

impl Gate for Beside<'_, Staying> {
    fn at(&self, moment: &Moment) {
        let whose = (moment.worker(), moment.slot(), moment.seq());
        if moment.point() != GatePoint::Leaves || whose != (0, 0, 1) || moment.entry().is_some() {
            return;
        }
        if let Some(mut second) = self.second.try_lock() {
            second.attempt();
        }
    }
}
