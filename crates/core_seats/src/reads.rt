ghost use Rattle.std.specs.Prelude.{◌≡◌, map};
ghost use Rattle.core_steps.specs.Reads.{player_at, state_at};
ghost use Rattle.core_seats.specs.PlayerReads.{player_read_of};

use entity_recs::{NewState, SLOTS};

/// What is loaded of a player: the five words of its record, and last its state.
pub type LoadedPlayer = [u64; 6];

/// What is loaded of each player, by slot.
pub type LoadedPlayers = [LoadedPlayer; SLOTS];

/// What was loaded of a player.
#[derive(Clone, Copy, Debug, Default, PartialEq, Eq)]
pub struct PlayerRead {
    /// The player's slot.
    pub slot: u8,
    /// The words of its record, of which the first ones are loaded.
    pub words: LoadedPlayer,
}

/// The words last loaded of a player.
pub fn player_words(others: &[PlayerRead], slot: u16) -> Option<LoadedPlayer>
    ensures { result ≡ player_at (map player_read_of others.now) slot }
{
    for read in others {
        if u16::from(read.slot) == slot {
            return Some(read.words);
        }
    }
    None
}

/// The state loaded of a thing of the map.
pub fn thing_state(states: &[NewState], id: u16) -> Option<u64>
    ensures { result ≡ state_at states.now id }
{
    for read in states {
        if read.id == id {
            return Some(read.state);
        }
    }
    None
}
