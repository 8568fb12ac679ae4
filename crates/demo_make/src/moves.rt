ghost use Rattle.std.specs.Prelude.{◌≡◌, ◌+◌, ◌<◌, ◌++◌, length, map, option_to_list};
ghost use Rattle.arena_map.specs.declared.limits.TheConstants.{MOST_FRAMES};
ghost use Rattle.demo_make.specs.GeneratedFrames as frames;
ghost use Rattle.demo_make.specs.ResentFrames as resent;
ghost use Rattle.demo_make.specs.LastWords.{commands_by};

use crate::last_words::LastWords;
use packet_read::{BlockList, CmdBlock, MovePacket};

/// How many milliseconds a move lasts.
const MS: u8 = 50;

/// How many units of Quake per second a wish has along an axis at the most.
const MOST_WISH: i16 = 320;

/// A wish along an axis: -320 to 320 units per second.
fn wish(word: u64) -> i16
    ensures { result ≡ frames.wish_of word }
{
    (word % (2 * MOST_WISH as u64 + 1)) as i16 - MOST_WISH
}

/// The command that a word gives.
fn drawn_command(word: u64) -> CmdBlock
    ensures { result ≡ frames.command_of word }
{
    CmdBlock {
        ms: MS,
        wish_x: wish(word),
        wish_y: wish(word >> 16),
        buttons: u8::from((word >> 32) % 16 == 0),
    }
}

/// The move that a word gives, with this sequence number.
pub fn drawn_move(seq: u32, word: u64) -> MovePacket
    ensures { result ≡ frames.move_of seq word }
{
    drawn_command(word).move_with_number(seq)
}

/// Puts the command that a word gives last, where there is a word.
fn push_command(commands: &mut BlockList, word: Option<u64>)
    requires { length commands.old < 3 }
    ensures { commands.new ≡ commands.old ++ map frames.command_of (option_to_list word) }
{
    if let Some(word) = word {
        commands.push(drawn_command(word));
    }
}

/// The commands that the words give, the oldest first.
pub fn last_commands(words: &LastWords) -> BlockList
    ensures { result ≡ commands_by words.now }
{
    let mut commands = BlockList::new();
    push_command(&mut commands, words.two_back);
    push_command(&mut commands, words.one_back);
    push_command(&mut commands, Some(words.newest));
    commands
}

/// Whether the packet of a player in this frame arrives, where commands are repeated: one of three does, and each one
/// of the last frame.
pub fn arrives(frames: u32, frame: u32, port: u16) -> bool
    requires { frame < MOST_FRAMES }
    ensures { result ≡ resent.arrives frames frame port }
{
    (frame + u32::from(port)) % 3 == 0 || frame + 1 == frames
}
