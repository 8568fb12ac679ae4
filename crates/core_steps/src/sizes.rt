// Words for 63 nodes and 512 ids, whatever the tree and the arena, so an index is a number that depends on neither.
/// How many nodes the table has words for, whatever the tree: those of a tree of depth 5.
pub const TABLE_NODES: usize = 63;

/// How many leaves a node's word has bits for: those of a tree of depth 5.
pub const TABLE_LEAVES: usize = 32;

/// How many ids the table has state words for, whatever the arena.
pub const TABLE_STATES: usize = 512;

/// The index of the count of commits.
pub const COUNT_WORD: u16 = 0;

/// The index of the word of node 0, after which come those of the other nodes.
pub const FIRST_NODE_WORD: u16 = 1;

/// The index of the list word of node 0, after which come those of the other nodes.
pub const FIRST_LIST_WORD: u16 = FIRST_NODE_WORD + TABLE_NODES as u16;

/// The index of the first of the five words of player 0, after which come those of the other players.
pub const FIRST_RECORD_WORD: u16 = FIRST_LIST_WORD + TABLE_NODES as u16;

/// The index of the state word of id 0, after which come those of the other ids.
pub const FIRST_STATE_WORD: u16 = FIRST_RECORD_WORD + 5 * 64;

/// How many words the table has.
pub const TABLE_WORDS: usize = FIRST_STATE_WORD as usize + TABLE_STATES;

/// The most seats. Their numbers are below it.
pub const MOST_SEATS: usize = 16;

/// How many values the low bits of a node's word have. They hold the number of the seat that holds the node plus 1, and
/// are 0 where nobody holds it; the bits above them are the leaves of the seat's command.
pub const NODE_HOLDERS: u64 = 256;
