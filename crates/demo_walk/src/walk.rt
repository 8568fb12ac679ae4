ghost use Rattle.std.specs.Prelude.{◌≡◌, ◌+◌, ◌-◌, ◌≤◌};
ghost use Rattle.arena_map.specs.declared.limits.TheConstants.{MOST_FRAMES};
ghost use Rattle.demo_make.specs.Words.{state_after};
ghost use Rattle.demo_walk.specs.WalkedFrames.{joined_before, words_before};

use crate::schedule::joined_by;
use demo_make::{Events, GeneratedEvent, drawn_move, words_of};
use packet_read::{Packet, write_packet};
use rand_xoshiro::SplitMix64;
use rand_xoshiro::rand_core::utils::NextWord;

/// Gives the events of a recording in which players join and walk, one after another: for each frame that it opens the
/// joins of those who join in it, and then a move of each who has joined, in the order of their ports; and at last its
/// end. It takes no memory.
#[derive(Drop)]
pub struct Walk {
    // No code reads it: the facts below count the words that were drawn from it.
    seed: u64,
    words: SplitMix64,
    players: u8,
    places: u8,
    opened: u32,
    frames_left: u32,
    joined: u8,
    joins_left: u8,
    moves_left: u8,
    ended: bool,
    ghost few_players: { players ≤ 64 },
    ghost few_places: { places ≤ 64 },
    ghost few_frames: { opened + frames_left ≤ MOST_FRAMES },
    ghost joined_is: { joined ≡ joined_before places players opened },
    ghost few_joined: { joined ≤ players },
    ghost few_joins: { joins_left ≤ joined },
    ghost few_moves: { moves_left ≤ joined },
    ghost words_are: { words ≡ state_after seed (words_before places players opened - moves_left) },
}

impl Walk {
    ghost use Rattle.std.specs.Prelude.{◌≡◌, ◌∷◌, ◌<◌};
    ghost use Rattle.demo_lines.specs.Spelling.{recording_events};
    ghost use Rattle.demo_make.specs.Remaining.{event_of};
    ghost use Rattle.demo_walk.specs.WalkedFrames.{walked_frames};
    ghost use Rattle.demo_walk.specs.Remaining.{remaining_events};

    /// A walk before its first event, of at most 64 players on a map with at most 64 places, in at most 100,000 frames.
    pub fn new(seed: u64, players: u8, places: u8, frames: u32) -> Walk
        requires players { players ≤ 64 }
        requires places { places ≤ 64 }
        requires frames { frames ≤ MOST_FRAMES }
        ensures { remaining_events result ≡ recording_events (walked_frames seed players places frames) }
    {
        Walk {
            seed,
            words: words_of(seed),
            players,
            places,
            opened: 0,
            frames_left: frames,
            joined: 0,
            joins_left: 0,
            moves_left: 0,
            ended: false,
        }
    }

    /// The next join of the frame that is open.
    fn join(&mut self) -> GeneratedEvent
        requires { 0 < self.old.joins_left }
        ensures { remaining_events self.old ≡ event_of result ∷ remaining_events self.new }
    {
        let port = u16::from(self.joined - self.joins_left) + 1;
        self.joins_left -= 1;
        GeneratedEvent::From {
            port,
            bytes: write_packet(&Packet::Join),
        }
    }

    /// The next move of the frame that is open, for which a word is drawn.
    fn send(&mut self) -> GeneratedEvent
        requires no_join { self.old.joins_left ≡ 0 }
        requires some { 0 < self.old.moves_left }
        ensures { remaining_events self.old ≡ event_of result ∷ remaining_events self.new }
    {
        let port = u16::from(self.joined - self.moves_left) + 1;
        self.moves_left -= 1;
        let word = self.words.next_word();
        GeneratedEvent::From {
            port,
            bytes: write_packet(&Packet::Move(drawn_move(self.opened, word))),
        }
    }

    /// Opens the next frame.
    fn open(&mut self) -> GeneratedEvent
        requires no_join { self.old.joins_left ≡ 0 }
        requires no_move { self.old.moves_left ≡ 0 }
        requires some { 0 < self.old.frames_left }
        ensures { remaining_events self.old ≡ event_of result ∷ remaining_events self.new }
    {
        let joined = joined_by(self.places, self.players, self.opened);
        self.joins_left = joined - self.joined;
        self.joined = joined;
        self.moves_left = joined;
        self.frames_left -= 1;
        self.opened += 1;
        GeneratedEvent::Frame
    }
}

impl Iterator for Walk {
    ghost use Rattle.std.specs.Iterator.{YieldsFirstBy, item_count};
    ghost use Rattle.demo_make.specs.Remaining.{event_of};
    ghost use Rattle.demo_walk.specs.Remaining.{remaining_events};

    type Item = GeneratedEvent;

    ghost next_gives = { YieldsFirstBy event_of remaining_events };

    ghost remaining = { item_count remaining_events };

    fn next(&mut self) -> Option<GeneratedEvent> {
        if self.joins_left > 0 {
            return Some(self.join());
        }
        if self.moves_left > 0 {
            return Some(self.send());
        }
        if self.frames_left > 0 {
            return Some(self.open());
        }
        if self.ended {
            return None;
        }
        self.ended = true;
        Some(GeneratedEvent::End)
    }
}

impl Events for Walk {
    ghost use Rattle.demo_walk.specs.Remaining.{remaining_events};

    ghost left = { remaining_events };

    ghost can = { λ s. tt };

    ghost gives = { λ s event t given. given };

    ghost ends = { λ s. tt };
}
