ghost use Rattle.std.specs.Prelude.{◌≡◌, ◌∷◌, [], Some, None, is_some, option_copied};
ghost use Rattle.entity_recs.specs.Commands.{command_of};
ghost use Rattle.ruled_words.specs.Hands.{pass_keeping};
ghost use Rattle.ruled_words.specs.Passes.{IsOwn};
ghost use Rattle.shared_moves.specs.InHand.{command_pursued};
ghost use Rattle.shared_moves.specs.Points.{has_entry};
ghost use Rattle.shared_moves.specs.Moments.{IsAtPoint, HasLogged};

use crate::gate_point::GatePoint;
use entity_recs::{Action, Cmd, Effect, Entry};
use ruled_words::{Hand, SharedWords};
use std::marker::Model;

// Made of the pass and the command, and asks that the pass is at the point, so no gate can be called of a move that
// isn't there. It owns its entry while the gate looks at it.
/// A moment of a move, which is lent to the gate. Only the calls that run moves make one: it has no public constructor
/// and can't be cloned.
#[derive(Debug, Drop)]
pub struct Moment {
    worker: u8,
    point: GatePoint,
    slot: u8,
    seq: u32,
    entry: Option<Entry>,
}

impl Model for Moment {
    ghost use Rattle.std.specs.Prelude.{◌≡◌, is_some};
    ghost use Rattle.shared_moves.specs.Points.{MomentView, has_entry};

    ghost Value = { MomentView };

    ghost view = { λ m. record { worker = m.worker; point = m.point; slot = m.slot; seq = m.seq; entry = m.entry } };

    ghost invariant = { λ m. is_some m.entry ≡ has_entry m.point };
}

impl Moment {
    /// The moment at which a hand holds the leaves of its command.
    pub(crate) fn at_leaves(hand: &Hand, cmd: &Cmd) -> Moment
        requires at { IsAtPoint hand.now GatePoint.Leaves }
        requires in_hand { command_pursued hand.now ≡ command_of cmd.now ∷ [] }
        ensures { result ≡ record {
          worker = hand.now.number;
          point = GatePoint.Leaves;
          slot = cmd.now.slot;
          seq = cmd.now.seq;
          entry = None;
        } }
    {
        Moment {
            worker: hand.number(),
            point: GatePoint::Leaves,
            slot: cmd.slot,
            seq: cmd.seq,
            entry: None,
        }
    }

    /// The moment at which the effect of a hand's command is known: it is what the action gives on all that was loaded of
    /// these words.
    pub(crate) fn at_effect<A: Action>(
        words: &SharedWords<A>,
        hand: &Hand,
        cmd: &Cmd,
        effect: &Effect,
    ) -> Moment
        requires own { IsOwn A.meaning words.now (pass_keeping hand.now effect.now) }
        requires at { IsAtPoint (pass_keeping hand.now effect.now) GatePoint.Computed }
        requires in_hand { command_pursued hand.now ≡ command_of cmd.now ∷ [] }
        ensures { result ≡ record {
          worker = hand.now.number;
          point = GatePoint.Computed;
          slot = cmd.now.slot;
          seq = cmd.now.seq;
          entry = None;
        } }
    {
        // The conditions alone read the words and the effect.
        let _ = words;
        let _ = effect;
        Moment {
            worker: hand.number(),
            point: GatePoint::Computed,
            slot: cmd.slot,
            seq: cmd.seq,
            entry: None,
        }
    }

    /// The moment after the commit of the hand's command with this entry, which are the last item of its log.
    pub(crate) fn at_commit(hand: &Hand, cmd: &Cmd, entry: Entry) -> Moment
        requires at { IsAtPoint hand.now GatePoint.Committed }
        requires logged { HasLogged hand.now (command_of cmd.now) entry }
        ensures { result ≡ record {
          worker = hand.now.number;
          point = GatePoint.Committed;
          slot = cmd.now.slot;
          seq = cmd.now.seq;
          entry = Some entry;
        } }
    {
        Moment {
            worker: hand.number(),
            point: GatePoint::Committed,
            slot: cmd.slot,
            seq: cmd.seq,
            entry: Some(entry),
        }
    }

    /// Gives the entry back, if there is one.
    pub(crate) fn into_entry(self) -> Option<Entry>
        ensures { result ≡ self.entry }
    {
        self.entry
    }

    /// The number of the pass that runs the move.
    pub fn worker(&self) -> u8
        ensures { result ≡ self.now.worker }
    {
        self.worker
    }

    /// Where the move is.
    pub fn point(&self) -> GatePoint
        ensures { result ≡ self.now.point }
    {
        self.point
    }

    /// The slot of the player whose move it is, 0 to 63.
    pub fn slot(&self) -> u8
        ensures { result ≡ self.now.slot }
    {
        self.slot
    }

    /// The player's own number of the move.
    pub fn seq(&self) -> u32
        ensures { result ≡ self.now.seq }
    {
        self.seq
    }

    /// The move's entry, exactly where it is committed.
    pub fn entry(&self) -> Option<&Entry>
        ensures entry { option_copied result ≡ self.now.entry }
        ensures some { is_some result ≡ has_entry self.now.point }
    {
        self.entry.as_ref()
    }
}
