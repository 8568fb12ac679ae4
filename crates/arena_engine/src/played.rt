use crate::game::Game;
use crate::stop::Stop;
use feed_queue::ArrivalOrder;
use move_journal::Journal;

/// How the playing of a recording ended.
#[derive(Drop)]
pub struct Played {
    /// Whether it was played to its end, or why not.
    pub ended: Result<(), Stop>,
    /// The journal of the last frame that was run, if one was.
    pub last: Option<Journal>,
    /// The order of arrival of its packets, where client threads sent them.
    pub order: Option<ArrivalOrder>,
}

impl Played {
    ghost use Rattle.std.specs.Prelude.{◌≡◌, Err};
    ghost use Rattle.arena_engine.specs.Feedings.{no_last};
    ghost use Rattle.arena_engine.specs.Reports.{last_of};

    /// It stopped before there was a game.
    pub fn before_frames(stop: Stop) -> Played
        ensures ended { result.ended ≡ Err stop }
        ensures last { last_of result ≡ no_last }
    {
        Played {
            ended: Err(stop),
            last: None,
            order: None,
        }
    }

    /// It ended so, with this game.
    pub fn with_game(game: Game, ended: Result<(), Stop>) -> Played
        ensures ended { result.ended ≡ ended }
        ensures last { last_of result ≡ game.entry.last }
    {
        let (last, order) = game.into_last();
        Played { ended, last, order }
    }
}
