use crate::seat::Seat;

impl Seat {
    ghost use Rattle.std.specs.Prelude.{◌≡◌};
    ghost use Rattle.core_steps.specs.Steps.{view_after_refusal};
    ghost use Rattle.core_machine.specs.Seats.{view_of, things_room};

    /// A take of this node was refused, where this word was found.
    pub fn refuse(&mut self, node: u8, word: u64)
        ensures view { view_of self.new ≡ view_after_refusal node word (view_of self.old) }
        ensures things { things_room self.new ≡ things_room self.old }
    {
        self.refusals
            .note(node, word, self.own.as_slice(), &self.wanted);
    }
}
