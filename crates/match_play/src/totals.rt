ghost use Rattle.arena_map.specs.declared.limits.TheConstants.{MOST_FRAMES};

use crate::items::items_in;
use client_ports::Received;
use entity_recs::Entry;

// They are counted, though a law says what they are: the line says what happened.
/// What the frames of a match come to.
#[derive(Clone, Copy, Debug, PartialEq, Eq)]
pub struct Totals {
    /// How many frames were run.
    pub frames: u32,
    /// How many players joined.
    pub joins: u32,
    /// How many moves were run.
    pub moves: u32,
    /// How many packets were refused.
    pub refused: u32,
    /// How many items were taken.
    pub items: u32,
    /// The sum of the live players' scores after the last frame.
    pub score: u64,
}

impl Totals {
    ghost use Rattle.std.specs.Prelude.{◌≡◌, ◌<◌};
    ghost use Rattle.match_play.specs.Totals.{no_totals, totals_with, HasFew, AreBounded};

    /// The totals before the first frame.
    pub(crate) fn new() -> Totals
        ensures none { result ≡ no_totals }
        ensures bounded { AreBounded result }
    {
        Totals {
            frames: 0,
            joins: 0,
            moves: 0,
            refused: 0,
            items: 0,
            score: 0,
        }
    }

    /// The totals with one frame more, of what its packets came to and its journal, after which the live players'
    /// scores have this sum.
    pub(crate) fn with_frame(&self, received: &Received, journal: &[Entry], score: u64) -> Totals
        requires room { self.now.frames < MOST_FRAMES }
        requires bounded { AreBounded self.now }
        requires few { HasFew received.now.lists journal.now }
        ensures totals { result ≡ totals_with self.now received.now.lists journal.now score }
        ensures bounded { AreBounded result }
    {
        Totals {
            frames: self.frames + 1,
            joins: self.joins + received.joined().len() as u32,
            moves: self.moves + journal.len() as u32,
            refused: self.refused + received.refused().len() as u32,
            items: self.items + items_in(journal),
            score,
        }
    }
}
