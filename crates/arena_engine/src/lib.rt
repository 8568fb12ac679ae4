//! The arena server's top call: it plays a recording and writes what each player sees.
#![tactic(auto)]

ghost use Rattle.std.specs.Prelude.{◌≡◌, ◌↔◌, None};
ghost use Rattle.arena_engine.specs.declared.command.Command.{Command};
ghost use Rattle.arena_engine.specs.Endings.{Ends};
ghost use Rattle.arena_engine.specs.Served.{IsServed, HasNoOrder, NeverLacksMemory};
ghost use Rattle.arena_engine.specs.Serving.{AskFor, AskForNothing};

use command::command_of;
use edge_io::{Sink, Source};
pub use laws::limits_are_known;
use perform::perform;
pub use report::Report;
use shared_moves::Gate;
pub use status::Status;
use std::alloc::Global;
use std::sync::Wait;
use std::thread::Threads;
pub use summary::MOST_SUMMARY_BYTES;

mod arranging;
mod command;
mod commands;
mod event_loop;
mod feeding;
mod game;
mod hiring;
mod laws;
mod numbers;
mod perform;
mod played;
mod printing;
mod report;
mod status;
mod stop;
mod summary;

/// Does what the words ask for.
///
/// `play N` reads a recording from the source, plays it on N workers, 1 to 16, and writes the output to the sink: for
/// each frame its text before the next line is read, and at last the line `end`. The rest of the input is ignored.
/// `feed N` does the same, with packets that two client threads send: after the line of a frame come those of its packets
/// in the order of their arrival.
/// `make SEED PLAYERS FRAMES` writes the recording of a seed, and `resend SEED PLAYERS FRAMES` that in which packets are
/// lost and commands are resent. `match SEED PLAYERS FRAMES N` plays the recording of a seed on N workers without writing
/// it, and writes one line of what its frames came to. None of the three reads. `walk SEED PLAYERS FRAMES` reads the lines
/// of a map up to the first `frame` or `end`, and writes a recording of that map in which players join and walk by the
/// words of the seed. `bots TARGET` reads a recording from the source, and writes one of the same map in which a bot
/// walks the shortest way from spawn 0 to spawn TARGET, with the way and the least lengths after its line `end`.
/// `check` reads a recording of at most 2,000 frames and what follows it, and writes one line where that is an output of
/// the recording; what follows the line `end K` of the output isn't looked at. `audit` reads the lines of a map and the
/// log of a match after them, as `feed` writes it, and writes the same line where that is right; it keeps one frame of the
/// log. `help` and `--help` write what the words and the statuses are, `version` and `--version` the version, and read
/// nothing.
///
/// Where there is more than one worker the moves of a frame may run at the same time, and each frame's journal has them
/// one after another: its entries are those of the moves run in this order. One worker runs them in the order of
/// arrival. `gate` is called at three points of each move by the worker that runs it.
///
/// The report's status says how it ended:
///
/// - 0: the recording was read to its line `end`, and its whole output was written; or the recording that was made or
/// resent, or that walks on the map, or the line of the match, was written whole; or what a way comes to was; or the
/// output or the log that was judged is right; or what explains the program was written.
/// - 1: a line of the recording has a fault; the report has the number of the first one, its first fault, and the rule
/// of the map that it breaks. The frames that were closed before it are written.
/// - 2: the words ask for nothing. Nothing is read or written.
/// - 3: a read failed. The frames that the lines before it close are written.
/// - 4: a write failed. A front of what was to be written is: of an output, all frames but the last are whole.
/// - 5: there was not enough memory. Of an output, whole frames are written; of what is made, resent, walked, summed or
/// planned, nothing.
/// - 6: the output or the log that was judged is wrong; the report has the number, in the whole input, of the first line
/// of the first piece that is wrong: of a frame, or of the last line. Nothing is written.
/// - 7: there is no way to the spawn. Where the map has no such spawn nothing is written, and where no walk leads there
/// the least lengths, which show it.
///
/// The report has the journal of the last frame that was run from a recording, which is the last frame that was
/// written, or the one whose text a failed write has cut. For `feed` it has the order of arrival of this frame. For
/// `match` it has the journals of all frames that were run.
pub fn serve<R: Threads + Wait + Sync, S: Source, K: Sink, G: Gate + Sync>(
    rt: &R,
    alloc: Global,
    words: &[&str],
    source: &mut S,
    sink: &mut K,
    gate: &G,
) -> Report
    // What was read and written, and what the report has beside its status, by the command.
    ensures served { (command : Command) → AskFor words.now command
        → IsServed S.Source K.Sink source.old source.new sink.old sink.new result command }
    // Only what client threads sent has an order of arrival.
    ensures orders { (command : Command) → AskFor words.now command → HasNoOrder result command }
    ensures no_order { result.status ≡ 2 → result.order ≡ None }
    // What explains the program never ends with want of memory.
    ensures memory { (command : Command) → AskFor words.now command → NeverLacksMemory result command }
    // Status 2 is that of words that ask for nothing.
    ensures words { (result.status ≡ 2) ↔ AskForNothing words.now }
    // What holds of every command.
    ensures ends { Ends S.Source K.Sink source.old source.new sink.old sink.new result }
{
    perform(rt, alloc, command_of(words), source, sink, gate)
}
