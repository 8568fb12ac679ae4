ghost use Rattle.std.specs.Prelude.{◌≡◌, Some, IfSome, [], ◌∷◌, codes};
ghost use Rattle.arena_engine.specs.Commands.{Spells, contents};
ghost use Rattle.arena_engine.specs.declared.command.Command.{Command};

use crate::numbers::{number, number_up_to};
use arena_map::{MOST_FRAMES, MOST_SPAWNS};
use entity_recs::SLOTS;
use match_play::MOST_MATCH_FRAMES;

/// The most workers.
const MOST_WORKERS: u32 = move_phase::MOST_WORKERS as u32;

/// The greatest number of a spawn.
const LAST_SPAWN: u64 = MOST_SPAWNS as u64 - 1;

/// The most players of a recording that is made.
const MOST_PLAYERS: u32 = SLOTS as u32;

/// What the program is asked for.
#[derive(Clone, Copy, Debug, PartialEq, Eq)]
pub enum Command {
    /// Plays a recording from the source.
    Play {
        /// How many workers run its moves, 1 to 16.
        workers: u8,
    },
    /// Plays a recording from the source, whose packets client threads send.
    Feed {
        /// How many workers run its moves, 1 to 16.
        workers: u8,
    },
    /// Writes the recording of a seed.
    Make {
        /// The seed.
        seed: u64,
        /// How many players it has, 1 to 64.
        players: u8,
        /// How many frames it has, 1 to 100,000.
        frames: u32,
    },
    /// Writes the recording of a seed in which commands are resent.
    Resend {
        /// The seed.
        seed: u64,
        /// How many players it has, 1 to 64.
        players: u8,
        /// How many frames it has, 1 to 100,000.
        frames: u32,
    },
    /// Reads the lines of a map from the source, and writes a recording of it in which players join and walk, by the words
    /// of a seed.
    Walk {
        /// The seed.
        seed: u64,
        /// How many players it has, 1 to 64.
        players: u8,
        /// How many frames it has, 1 to 100,000; none where the map has no spawn.
        frames: u32,
    },
    /// Plays the recording of a seed without writing it.
    Match {
        /// The seed.
        seed: u64,
        /// How many players it has, 1 to 64.
        players: u8,
        /// How many frames it has, 1 to 2,000.
        frames: u32,
        /// How many workers run its moves, 1 to 16.
        workers: u8,
    },
    /// Reads a recording from the source, and writes one in which a bot walks from its first spawn to another.
    Bots {
        /// The number of that spawn, 0 to 63.
        target: u8,
    },
    /// Reads a recording from the source, and after it an output, and says whether it is one of the recording.
    Check,
    /// Reads the lines of a map from the source, and after them the log of a match, and says whether it is right.
    Audit,
    /// Writes what the words are and what the statuses mean.
    Help,
    /// Writes the program's version.
    Version,
}

/// The command `play` with this word.
fn play(workers: &str) -> Option<Command>
    ensures some { IfSome result (Spells (codes "play" ∷ workers.now ∷ [])) }
    ensures only { (c : Command) → Spells (codes "play" ∷ workers.now ∷ []) c → result ≡ Some c }
{
    Some(Command::Play {
        workers: number_up_to(workers, MOST_WORKERS)? as u8,
    })
}

/// The command `feed` with this word.
fn feed(workers: &str) -> Option<Command>
    ensures some { IfSome result (Spells (codes "feed" ∷ workers.now ∷ [])) }
    ensures only { (c : Command) → Spells (codes "feed" ∷ workers.now ∷ []) c → result ≡ Some c }
{
    Some(Command::Feed {
        workers: number_up_to(workers, MOST_WORKERS)? as u8,
    })
}

/// The command `make` with these words.
fn make(seed: &str, players: &str, frames: &str) -> Option<Command>
    ensures some { IfSome result (Spells (codes "make" ∷ seed.now ∷ players.now ∷ frames.now ∷ [])) }
    ensures only { (c : Command) → Spells (codes "make" ∷ seed.now ∷ players.now ∷ frames.now ∷ []) c
        → result ≡ Some c }
{
    Some(Command::Make {
        seed: number(seed)?,
        players: number_up_to(players, MOST_PLAYERS)? as u8,
        frames: number_up_to(frames, MOST_FRAMES)?,
    })
}

/// The command `resend` with these words.
fn resend(seed: &str, players: &str, frames: &str) -> Option<Command>
    ensures some { IfSome result (Spells (codes "resend" ∷ seed.now ∷ players.now ∷ frames.now ∷ [])) }
    ensures only { (c : Command) → Spells (codes "resend" ∷ seed.now ∷ players.now ∷ frames.now ∷ []) c
        → result ≡ Some c }
{
    Some(Command::Resend {
        seed: number(seed)?,
        players: number_up_to(players, MOST_PLAYERS)? as u8,
        frames: number_up_to(frames, MOST_FRAMES)?,
    })
}

/// The command `walk` with these words.
fn walk(seed: &str, players: &str, frames: &str) -> Option<Command>
    ensures some { IfSome result (Spells (codes "walk" ∷ seed.now ∷ players.now ∷ frames.now ∷ [])) }
    ensures only { (c : Command) → Spells (codes "walk" ∷ seed.now ∷ players.now ∷ frames.now ∷ []) c
        → result ≡ Some c }
{
    Some(Command::Walk {
        seed: number(seed)?,
        players: number_up_to(players, MOST_PLAYERS)? as u8,
        frames: number_up_to(frames, MOST_FRAMES)?,
    })
}

/// The command `match` with these words.
fn match_of(seed: &str, players: &str, frames: &str, workers: &str) -> Option<Command>
    ensures some { IfSome result
        (Spells (codes "match" ∷ seed.now ∷ players.now ∷ frames.now ∷ workers.now ∷ [])) }
    ensures only { (c : Command)
        → Spells (codes "match" ∷ seed.now ∷ players.now ∷ frames.now ∷ workers.now ∷ []) c → result ≡ Some c }
{
    Some(Command::Match {
        seed: number(seed)?,
        players: number_up_to(players, MOST_PLAYERS)? as u8,
        frames: number_up_to(frames, MOST_MATCH_FRAMES)?,
        workers: number_up_to(workers, MOST_WORKERS)? as u8,
    })
}

/// The command `bots` with this word.
fn bots(target: &str) -> Option<Command>
    ensures some { IfSome result (Spells (codes "bots" ∷ target.now ∷ [])) }
    ensures only { (c : Command) → Spells (codes "bots" ∷ target.now ∷ []) c → result ≡ Some c }
{
    let target = number(target)?;
    if target > LAST_SPAWN {
        return None;
    }
    Some(Command::Bots {
        target: target as u8,
    })
}

/// The command that the words ask for, and `None` exactly where they are those of no command: `play N`, `feed N`,
/// `make SEED PLAYERS FRAMES`, `resend SEED PLAYERS FRAMES`, `walk SEED PLAYERS FRAMES`, `match SEED PLAYERS FRAMES N`,
/// `bots TARGET`, `check`, `audit`, `help` or `version`, the last two also as `--help` and `--version`, where each number
/// is in its range, in decimal digits without a sign and without a leading zero, 0 itself excepted.
pub fn command_of(words: &[&str]) -> Option<Command>
    ensures some { IfSome result (Spells (contents words.now)) }
    ensures only { (c : Command) → Spells (contents words.now) c → result ≡ Some c }
{
    match *words {
        ["play", workers] => play(workers),
        ["feed", workers] => feed(workers),
        ["make", seed, players, frames] => make(seed, players, frames),
        ["resend", seed, players, frames] => resend(seed, players, frames),
        ["walk", seed, players, frames] => walk(seed, players, frames),
        ["match", seed, players, frames, workers] => match_of(seed, players, frames, workers),
        ["check"] => Some(Command::Check),
        ["audit"] => Some(Command::Audit),
        ["help"] => Some(Command::Help),
        ["--help"] => Some(Command::Help),
        ["version"] => Some(Command::Version),
        ["--version"] => Some(Command::Version),
        ["bots", target] => bots(target),
        _ => None,
    }
}
