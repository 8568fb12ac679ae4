ghost use Rattle.std.specs.Prelude.{◌≡◌, ◌≤◌, ◌<◌};
ghost use Rattle.arena_map.specs.declared.limits.TheConstants.{MOST_FRAMES};
ghost use Rattle.demo_walk.specs.WalkedFrames as frames;

/// In how many frames as many players join as the map has places: long enough that most have left their spawn.
const TURN: u32 = 64;

/// How many players have sent their joins by this frame.
pub fn joined_by(places: u8, players: u8, frame: u32) -> u8
    requires few { places ≤ 64 }
    requires within { frame < MOST_FRAMES }
    ensures value { result ≡ frames.joined_by places players frame }
    ensures few { result ≤ players }
{
    u32::from(players).min(u32::from(places) * (frame + TURN) / TURN) as u8
}
