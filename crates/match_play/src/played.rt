ghost use Rattle.std.specs.Prelude.{◌≡◌, ◌≤◌, length, IfOk, OnOk};
ghost use Rattle.demo_make.specs.GeneratedMap.{generated_map};
ghost use Rattle.match_play.specs.Games.{new_game};
ghost use Rattle.match_play.specs.Matches.{IsMatch, HasEachJournal, match_totals, entries_of};

use crate::game::MatchGame;
use crate::totals::Totals;
use demo_make::Generator;
use move_phase::Runners;
use playback::Host;
use shared_moves::Gate;
use std::alloc::AllocError;
use std::sync::Wait;
use std::thread::Threads;

// The game is lent, since no clause over an answer alone could say that none of its journals is lost where memory is
// refused.
/// Plays the recording of this seed, with 1 to 64 players and 1 to 2,000 frames, without writing it: the same packets
/// come in the same frames. One worker runs the moves of a frame in the order of arrival. It takes no memory that grows
/// with the number of frames but that for their journals.
///
/// The game is a new one. Whatever the outcome, it has the journal of each frame that its server has run, in their
/// order. The answer is what the frames came to; the only error is that memory is refused.
pub fn play_match<'a, R: Threads + Wait + Sync, G: Gate>(
    host: &Host<R>,
    runners: &mut Runners<'a, G>,
    seed: u64,
    players: u8,
    frames: u32,
    game: &mut MatchGame<'a>,
) -> Result<Totals, AllocError>
    requires range { IsMatch players frames }
    requires fresh { game.old ≡ new_game generated_map }
    ensures each { HasEachJournal seed players host.now.workers game.new }
    ensures few { length game.new.journals ≤ frames }
    // Where memory sufficed, all frames were run.
    ensures all { OnOk result (length game.new.journals ≡ frames) }
    ensures totals { IfOk result (λ totals. totals ≡ match_totals seed players (entries_of game.new.journals)) }
{
    for event in Generator::new(seed, players, frames) {
        game.take(host, runners, event.to_event())?;
    }
    Ok(game.totals())
}
