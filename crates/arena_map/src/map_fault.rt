ghost use Rattle.std.specs.Prelude.{◌≡◌};
ghost use Rattle.arena_map.specs.declared.map_fault.MapRefusal.TheVariants.{NoMemory};

use std::alloc::{AllocError, AllocFailed};
use thiserror::Error;

/// The rule of a map that a line breaks, with its number from 1 to 8.
#[derive(Clone, Copy, Debug, PartialEq, Eq, Error)]
pub enum MapFault {
    /// A side of the arena is too short.
    #[error("a side of the arena is too short")]
    Arena = 1,
    /// A block, teleporter, goal or lift has no inside, or isn't inside the arena.
    #[error("a box has no inside, or is not inside the arena")]
    Box = 2,
    /// There are as many of the line's kind as there may be; after a block, no line may say how many blocks there may be.
    #[error("there are as many of the kind as there may be")]
    Count = 3,
    /// A player at the spawn or the destination wouldn't be inside the arena.
    #[error("a player there would not be inside the arena")]
    Stand = 4,
    /// The item's body isn't inside the arena.
    #[error("the body of the item is not inside the arena")]
    Item = 5,
    /// The lift would leave the arena.
    #[error("the lift would leave the arena")]
    Travel = 6,
    /// A frame comes and there is no spawn.
    #[error("a frame comes and there is no spawn")]
    NoSpawn = 7,
    /// A lift's shaft would meet a block or another shaft.
    #[error("the shaft of the lift would meet a block or another shaft")]
    Shaft = 8,
}

impl MapFault {
    ghost use Rattle.arena_map.specs.Faults as faults;

    /// The rule's number, 1 to 8.
    pub fn number(self) -> u8
        ensures { result ≡ faults.number_of self }
    {
        self as u8
    }
}

/// Why a line isn't added to a map.
#[derive(Clone, Copy, Debug, PartialEq, Eq, Error)]
pub enum MapRefusal {
    /// The line breaks this rule, and none before it.
    #[error("the line breaks a rule of the map: {0}")]
    Rule(MapFault),
    /// There was no memory left.
    #[error("out of memory")]
    NoMemory,
}

impl From<AllocError> for MapRefusal {
    ghost from_gives = { λ _ refusal. refusal ≡ NoMemory };

    fn from(_error: AllocError) -> MapRefusal {
        MapRefusal::NoMemory
    }
}

impl<T: Drop> From<AllocFailed<T>> for MapRefusal {
    ghost from_gives = { λ _ refusal. refusal ≡ NoMemory };

    fn from(_error: AllocFailed<T>) -> MapRefusal {
        MapRefusal::NoMemory
    }
}
