ghost use Rattle.std.specs.Prelude.{◌≡◌};

/// What a record is. A player and a lift are solids, the others are triggers; ammunition and gems are items.
#[derive(Clone, Copy, Debug, PartialEq, Eq)]
pub enum Kind {
    /// A player: a solid, 0 in a snapshot.
    Player = 0,
    /// An item of ammunition: a trigger, 1 in a snapshot.
    Ammo = 1,
    /// A gem, an item that scores at a goal: a trigger, 2 in a snapshot.
    Gem = 2,
    /// What moves the players that touch it: a trigger, 3 in a snapshot.
    Teleporter = 3,
    /// Where gems become a score: a trigger, 4 in a snapshot.
    Goal = 4,
    /// A box that goes up and down: a solid, 5 in a snapshot.
    Lift = 5,
}

impl Kind {
    ghost use Rattle.entity_recs.specs.Kinds as kinds;

    /// The kind's number, from 0 for a player to 5 for a lift, as snapshots write it.
    pub fn number(self) -> u8
        ensures { result ≡ kinds.number_of self }
    {
        self as u8
    }

    /// Whether it is a solid, which other bodies can't enter: a player or a lift. The other kinds are triggers.
    pub fn is_solid(self) -> bool
        ensures { result ≡ kinds.is_solid self }
    {
        match self {
            Kind::Player | Kind::Lift => true,
            Kind::Ammo | Kind::Gem | Kind::Teleporter | Kind::Goal => false,
        }
    }

    /// Whether it is an item, which a player takes by touching it: ammunition or a gem.
    pub fn is_item(self) -> bool
        ensures { result ≡ kinds.is_item self }
    {
        match self {
            Kind::Ammo | Kind::Gem => true,
            Kind::Player | Kind::Teleporter | Kind::Goal | Kind::Lift => false,
        }
    }
}
