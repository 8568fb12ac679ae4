ghost use Rattle.std.specs.Prelude.{◌≡◌, ℕ, length};
ghost use Rattle.core_seats.specs.Going.{word_left};
ghost use Rattle.core_steps.specs.declared.sizes.TheConstants.{TABLE_WORDS};
ghost use Rattle.core_steps.specs.Machine.{index_of};
ghost use Rattle.ruled_words.specs.Starts.{fixed_by};
ghost use Rattle.ruled_words.specs.Going.{MayGo};
ghost use Rattle.ruled_words.specs.Plays.{IsSoundSight, SeatStepped};
ghost use Rattle.ruled_words.specs.WordSteps.{word_by, MayBe};

use crate::rule::key::{TableSeat, Words};
use crate::rule::plays::{Goes, Planned};
use crate::word_step::WordStep;
use entity_recs::Action;

/// The seat makes its next step, which does this to the word, and gives the word that was found, or for a store the one
/// that was stored.
pub(crate) fn step_as<A: Action, N: Planned, T>(
    words: &Words<A>,
    about: &T,
    seat: &mut TableSeat,
    word: usize,
    step: WordStep,
) -> u64
    requires table { (seat.old.table_id ≡ words.now.table_id) × (words.now.table_id.words ≡ TABLE_WORDS) }
    requires fixed { N.fixed ≡ fixed_by A.meaning words.now.key.action.value words.now.key.world.value }
    requires passes { N.passes ≡ length words.now.key.rooms.items }
    requires sound_sight { IsSoundSight N.fixed N.passes seat.old.me.0 }
    requires next { MayGo N.fixed N.passes seat.old.me.0.number seat.old.me.0.view N.given N.quits N.next }
    requires word { word ≡ index_of seat.old.me.0.view N.next }
    requires left { (found : ℕ) → word_left N.fixed seat.old.me.0.number seat.old.me.0.view N.next found
        ≡ word_by step found }
    requires may { MayBe step N.fixed seat.old.me.0.view N.next word }
    ensures table { seat.new.table_id ≡ seat.old.table_id }
    ensures stored { (new : ℕ) → step ≡ WordStep.Store new → result ≡ new }
    ensures stepped { SeatStepped N.fixed N.passes N.next seat.old.me result seat.new.me }
{
    // What the caller picks the play from, in the proof.
    let _ = about;
    match step {
        WordStep::Load => words.load::<Goes<N>>(seat, word),
        WordStep::Store(new) => {
            words.store::<Goes<N>>(seat, word, new);
            new
        }
        WordStep::Take(new) => words.compare_exchange::<Goes<N>>(seat, word, 0, new),
        WordStep::Count => words.fetch_add::<Goes<N>>(seat, word, 1),
        WordStep::Clear(slot) => words.fetch_and::<Goes<N>>(seat, word, !(1 << slot)),
        WordStep::Set(slot) => words.fetch_or::<Goes<N>>(seat, word, 1 << slot),
    }
}
