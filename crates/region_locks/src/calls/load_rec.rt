ghost use Rattle.std.specs.Prelude.{◌≡◌, Some};
ghost use Rattle.ruled_words.specs.Passes.{fixed_in, IsOwn, next_in};
ghost use Rattle.ruled_words.specs.Loads.{record_loaded_next, HasLoaded};

use crate::pass::Pass;
use crate::table::NodeTable;
use arrayvec::ArrayVec;
use core_seats::{WordList, read_record};
use entity_recs::{Action, Rec};
use ruled_words::{WordStep, index_of_word};

impl<'a, A: Action> NodeTable<'a, A> {
    /// Loads the record of the player in this slot, which are the pass's next six steps: the own record for a command
    /// that was given, the own record again once all leaves are held, or another player's under the node that is
    /// visited.
    pub fn load_rec(&self, pass: &mut Pass<A>, slot: u8) -> Rec
        requires own { IsOwn A.meaning self.now pass.old }
        requires next { record_loaded_next pass.old.view
            (next_in A.meaning self.now pass.old) ≡ Some slot }
        ensures own { IsOwn A.meaning self.now pass.new }
        ensures loaded { HasLoaded (fixed_in A.meaning self.now) pass.old pass.new slot result }
    {
        let mut words: WordList = ArrayVec::new();
        for k in 0..6usize {
            words.push(self.step_word(pass, index_of_word(slot, k), WordStep::Load));
        }
        read_record(slot, words.as_slice())
    }
}
