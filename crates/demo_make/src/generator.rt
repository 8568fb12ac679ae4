ghost use Rattle.std.specs.Prelude.{◌≡◌, ◌+◌, ◌*◌, ◌≤◌};
ghost use Rattle.arena_map.specs.declared.limits.TheConstants.{MOST_FRAMES};
ghost use Rattle.demo_make.specs.declared.sending.Sending.TheVariants.{Repeated};
ghost use Rattle.demo_make.specs.Words.{state_back};

use crate::generated_event::GeneratedEvent;
use crate::last_words::{LastWords, next_word_if};
use crate::moves::{arrives, drawn_move, last_commands};
use crate::sending::Sending;
use packet_read::{MovesPacket, Packet, write_packet};
use rand_xoshiro::SplitMix64;
use rand_xoshiro::rand_core::SeedableRng;
use rand_xoshiro::rand_core::utils::NextWord;

/// The words of a seed, from the first on.
pub fn words_of(seed: u64) -> SplitMix64
    ensures { result ≡ seed }
{
    SplitMix64::from_seed(seed.to_le_bytes())
}

// It keeps counts of what is left, so its facts are inequalities, and its seed, which no code reads, for the facts on
// which words were drawn. Commands that are resent are drawn again, by two more streams of the same seed, so no
// command is kept.
/// Gives the events of a generated recording, one after another: for each frame that it opens, in the first one a join
/// of each player, and then the packets with commands, in the order of their ports; and at last its end. It takes no
/// memory.
///
/// Where commands are repeated, their words are drawn again one and two frames late, from the same seed: so no command
/// is kept.
#[derive(Drop)]
pub struct Generator {
    // No code reads it: the facts below count the words that were drawn from it.
    seed: u64,
    sending: Sending,
    words: SplitMix64,
    one_back: SplitMix64,
    two_back: SplitMix64,
    players: u8,
    opened: u32,
    frames_left: u32,
    joins_left: u8,
    moves_left: u8,
    ended: bool,
    ghost few_players: { players ≤ 64 },
    ghost few_joins: { joins_left ≤ players },
    ghost few_moves: { moves_left ≤ players },
    ghost few_frames: { opened + frames_left ≤ MOST_FRAMES },
    ghost moves_of_open: { moves_left ≤ 64 * opened },
    ghost words_are: { words ≡ state_back seed players opened moves_left 0 },
    ghost one_back_is: { sending ≡ Repeated → one_back ≡ state_back seed players opened moves_left 1 },
    ghost two_back_is: { sending ≡ Repeated → two_back ≡ state_back seed players opened moves_left 2 },
}

impl Generator {
    ghost use Rattle.std.specs.Prelude.{◌≡◌, ◌∷◌, ◌<◌, ◌-◌, true, map};
    ghost use Rattle.std.specs.Bool.{OnTrue, OnFalse};
    ghost use Rattle.std.specs.List.{range_with_len};
    ghost use Rattle.demo_lines.specs.Spelling.{recording_events};
    ghost use Rattle.demo_make.specs.declared.sending.Sending.TheVariants.{Once};
    ghost use Rattle.demo_make.specs.GeneratedFrames.{IsInRange, generated_events};
    ghost use Rattle.demo_make.specs.ResentFrames.{resent_events};
    ghost use Rattle.demo_make.specs.LastWords.{AreLast};
    ghost use Rattle.demo_make.specs.Remaining.{event_of, frame_of, remaining_events, progress_of};
    ghost use Rattle.demo_make.specs.Remaining.{sender_in, comes_in, IsLost, with_one_sent};

    /// A generator before its first event, where each command is sent once. The recording has 1 to 64 players and 1 to
    /// 100,000 frames.
    pub fn new(seed: u64, players: u8, frames: u32) -> Generator
        requires { IsInRange players frames }
        ensures { remaining_events result ≡ generated_events seed players frames }
    {
        Generator::at_start(Sending::Once, seed, players, frames)
    }

    /// A generator before its first event, where each packet repeats the two commands before its own, and one of three
    /// arrives. The recording has 1 to 64 players and 1 to 100,000 frames.
    pub fn with_resends(seed: u64, players: u8, frames: u32) -> Generator
        requires { IsInRange players frames }
        ensures { remaining_events result ≡ resent_events seed players frames }
    {
        Generator::at_start(Sending::Repeated, seed, players, frames)
    }

    /// A generator before its first event.
    fn at_start(sending: Sending, seed: u64, players: u8, frames: u32) -> Generator
        requires { IsInRange players frames }
        ensures { remaining_events result
            ≡ recording_events (map (frame_of sending seed players frames) (range_with_len 0 frames)) }
    {
        Generator {
            seed,
            sending,
            words: words_of(seed),
            one_back: words_of(seed),
            two_back: words_of(seed),
            players,
            opened: 0,
            frames_left: frames,
            joins_left: 0,
            moves_left: 0,
            ended: false,
        }
    }

    /// The next join of the frame that is open.
    fn join(&mut self) -> GeneratedEvent
        requires { 0 < self.old.joins_left }
        ensures { remaining_events self.old ≡ event_of result ∷ remaining_events self.new }
    {
        let port = u16::from(self.players - self.joins_left) + 1;
        self.joins_left -= 1;
        GeneratedEvent::From {
            port,
            bytes: write_packet(&Packet::Join),
        }
    }

    /// The port whose packet with commands is the next of the frame that is open.
    fn sender(&self) -> u16
        ensures { result ≡ self.now.players - self.now.moves_left + 1 }
    {
        u16::from(self.players - self.moves_left) + 1
    }

    /// The next move of the frame that is open, for which a word is drawn, in a packet of its own.
    fn send_once(&mut self) -> GeneratedEvent
        requires sending { self.old.sending ≡ Once }
        requires no_join { self.old.joins_left ≡ 0 }
        requires some { 0 < self.old.moves_left }
        ensures { remaining_events self.old ≡ event_of result ∷ remaining_events self.new }
    {
        let port = self.sender();
        self.moves_left -= 1;
        let word = self.words.next_word();
        GeneratedEvent::From {
            port,
            bytes: write_packet(&Packet::Move(drawn_move(self.opened, word))),
        }
    }

    /// Draws the word of the next command of the frame that is open, and again those of the two before it.
    fn draw(&mut self) -> LastWords
        requires sending { self.old.sending ≡ Repeated }
        requires some { 0 < self.old.moves_left }
        ensures words { AreLast self.old.seed self.old.players (self.old.opened - 1)
            (sender_in (progress_of self.old)) result }
        ensures moves { progress_of self.new ≡ with_one_sent (progress_of self.old) }
    {
        self.moves_left -= 1;
        LastWords {
            two_back: next_word_if(&mut self.two_back, self.opened > 2),
            one_back: next_word_if(&mut self.one_back, self.opened > 1),
            newest: self.words.next_word(),
        }
    }

    /// The next packet of the frame that is open, which arrives and repeats commands.
    #[inline(never)]
    fn send_again(&mut self) -> GeneratedEvent
        requires sending { self.old.sending ≡ Repeated }
        requires no_join { self.old.joins_left ≡ 0 }
        requires some { 0 < self.old.moves_left }
        requires comes { comes_in (progress_of self.old) ≡ true }
        ensures { remaining_events self.old ≡ event_of result ∷ remaining_events self.new }
    {
        let port = self.sender();
        let packet = MovesPacket {
            seq: self.opened,
            cmds: last_commands(&self.draw()),
        };
        GeneratedEvent::From {
            port,
            bytes: write_packet(&Packet::Moves(packet)),
        }
    }

    /// Whether the next packet of the frame that is open is lost.
    fn is_lost(&self) -> bool
        ensures lost { OnTrue result (IsLost (progress_of self.now)) }
        ensures not_lost { OnFalse result (self.now.sending ≡ Repeated → 0 < self.now.moves_left
            → comes_in (progress_of self.now) ≡ true) }
    {
        self.sending == Sending::Repeated
            && self.moves_left > 0
            && !arrives(
                self.opened + self.frames_left,
                self.opened - 1,
                self.sender(),
            )
    }

    /// Passes over the packets of the frame that is open which are lost, up to the next one that arrives. The words of
    /// their commands are drawn.
    fn pass_lost(&mut self)
        requires { self.old.joins_left ≡ 0 }
        ensures same { remaining_events self.old ≡ remaining_events self.new }
        ensures no_join { self.new.joins_left ≡ 0 }
        ensures comes { self.new.sending ≡ Repeated → 0 < self.new.moves_left
            → comes_in (progress_of self.new) ≡ true }
    {
        while self.is_lost() {
            self.draw();
        }
    }

    /// Opens the next frame.
    fn open(&mut self) -> GeneratedEvent
        requires no_join { self.old.joins_left ≡ 0 }
        requires no_move { self.old.moves_left ≡ 0 }
        requires some { 0 < self.old.frames_left }
        ensures { remaining_events self.old ≡ event_of result ∷ remaining_events self.new }
    {
        self.joins_left = if self.opened == 0 { self.players } else { 0 };
        self.moves_left = self.players;
        self.frames_left -= 1;
        self.opened += 1;
        GeneratedEvent::Frame
    }
}

impl Iterator for Generator {
    ghost use Rattle.std.specs.Iterator.{YieldsFirstBy, item_count};
    ghost use Rattle.demo_make.specs.Remaining.{event_of, remaining_events};

    type Item = GeneratedEvent;

    ghost next_gives = { YieldsFirstBy event_of remaining_events };

    ghost remaining = { item_count remaining_events };

    fn next(&mut self) -> Option<GeneratedEvent> {
        if self.joins_left > 0 {
            return Some(self.join());
        }
        self.pass_lost();
        if self.moves_left > 0 {
            if self.sending == Sending::Once {
                return Some(self.send_once());
            }
            return Some(self.send_again());
        }
        if self.frames_left > 0 {
            return Some(self.open());
        }
        if self.ended {
            return None;
        }
        self.ended = true;
        Some(GeneratedEvent::End)
    }
}
