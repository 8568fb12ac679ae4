ghost use Rattle.std.specs.Prelude.{◌≡◌, ◌≤◌, length};
ghost use Rattle.arena_map.specs.Words as words;
ghost use Rattle.arena_map.specs.Spelling as spelling;

use crate::map_line::MapLine;
use entity_recs::Kind;

/// The word with which a line of a map begins.
#[derive(Clone, Copy, Debug, PartialEq, Eq)]
pub enum MapWord {
    /// The box of the arena.
    Arena,
    /// A block, which no body enters.
    Block,
    /// A place where players join.
    Spawn,
    /// Ammunition or a gem.
    Item,
    /// A teleporter with its destination.
    Teleport,
    /// A goal.
    Goal,
    /// A lift.
    Lift,
    /// The depth of the tree of areanodes.
    Depth,
    /// That players may shoot.
    Shots,
    /// How many blocks there may be.
    Blocks,
}

/// What a field after the word is.
#[derive(Clone, Copy, Debug, PartialEq, Eq)]
pub enum MapField {
    /// A number, whatever its limit.
    Number,
    /// The kind of an item.
    ItemKind,
}

use MapField::{ItemKind, Number};

impl MapWord {
    /// The word that is written so. `None` exactly where the text is no word of a map.
    pub fn read(text: &[u8]) -> Option<MapWord>
        ensures { result ≡ words.map_word text.now }
    {
        if text == b"arena".as_slice() {
            Some(MapWord::Arena)
        } else if text == b"block".as_slice() {
            Some(MapWord::Block)
        } else if text == b"spawn".as_slice() {
            Some(MapWord::Spawn)
        } else if text == b"item".as_slice() {
            Some(MapWord::Item)
        } else if text == b"teleport".as_slice() {
            Some(MapWord::Teleport)
        } else if text == b"goal".as_slice() {
            Some(MapWord::Goal)
        } else if text == b"lift".as_slice() {
            Some(MapWord::Lift)
        } else if text == b"depth".as_slice() {
            Some(MapWord::Depth)
        } else if text == b"shots".as_slice() {
            Some(MapWord::Shots)
        } else if text == b"blocks".as_slice() {
            Some(MapWord::Blocks)
        } else {
            None
        }
    }

    /// How the word is written.
    pub fn text(self) -> &'static [u8]
        ensures text { result.now ≡ words.word_text self }
        ensures short { length result.now ≤ 8 }
    {
        match self {
            MapWord::Arena => b"arena",
            MapWord::Block => b"block",
            MapWord::Spawn => b"spawn",
            MapWord::Item => b"item",
            MapWord::Teleport => b"teleport",
            MapWord::Goal => b"goal",
            MapWord::Lift => b"lift",
            MapWord::Depth => b"depth",
            MapWord::Shots => b"shots",
            MapWord::Blocks => b"blocks",
        }
    }

    /// The fields after the word, in their order.
    pub fn fields(self) -> &'static [MapField]
        ensures { result.now ≡ words.fields_of self }
    {
        match self {
            MapWord::Arena | MapWord::Block | MapWord::Goal => &[Number; 6],
            MapWord::Spawn => &[Number; 3],
            MapWord::Item => &[Number, Number, Number, ItemKind, Number],
            MapWord::Teleport => &[Number; 9],
            MapWord::Lift => &[Number; 8],
            MapWord::Depth | MapWord::Blocks => &[Number],
            MapWord::Shots => &[],
        }
    }
}

/// The word of a line.
pub fn word_of(l: &MapLine) -> MapWord
    ensures { result ≡ spelling.word_of l.now }
{
    match l {
        MapLine::Arena { .. } => MapWord::Arena,
        MapLine::Block { .. } => MapWord::Block,
        MapLine::Spawn { .. } => MapWord::Spawn,
        MapLine::Item { .. } => MapWord::Item,
        MapLine::Teleport { .. } => MapWord::Teleport,
        MapLine::Goal { .. } => MapWord::Goal,
        MapLine::Lift { .. } => MapWord::Lift,
        MapLine::Depth(_) => MapWord::Depth,
        MapLine::Shots => MapWord::Shots,
        MapLine::Blocks(_) => MapWord::Blocks,
    }
}

/// The kind of an item that is written so. `None` exactly where the text is no item's kind.
pub fn item_kind(text: &[u8]) -> Option<Kind>
    ensures { result ≡ words.item_kind text.now }
{
    if text == b"ammo".as_slice() {
        Some(Kind::Ammo)
    } else if text == b"gem".as_slice() {
        Some(Kind::Gem)
    } else {
        None
    }
}

/// How the kind of an item is written; the other kinds are on no line.
pub fn kind_text(kind: Kind) -> &'static [u8]
    ensures text { result.now ≡ words.kind_text kind }
    ensures short { length result.now ≤ 4 }
{
    match kind {
        Kind::Ammo => b"ammo",
        Kind::Gem => b"gem",
        Kind::Player | Kind::Teleporter | Kind::Goal | Kind::Lift => b"",
    }
}
