ghost use Rattle.std.specs.Prelude.{◌≡◌, None};
ghost use Rattle.arena_engine.specs.Endings.{Counts};
ghost use Rattle.arena_engine.specs.Explained.{IsExplained};

use crate::report::Report;
use crate::status::Status;
use edge_io::{Sink, write_whole};
use std::alloc::Global;

/// What `help` writes.
pub const HELP: &[u8] = b"\
arena_cli: an arena server whose output is proved to be right

words                        what is done
play N                       plays the recording on standard input on N workers
feed N                       the same, where two client threads send the packets
make SEED PLAYERS FRAMES     writes the recording of a seed
resend SEED PLAYERS FRAMES   the same, where packets are lost and commands resent
walk SEED PLAYERS FRAMES     reads the lines of a map, and writes a recording
                             in which players join and walk on it
match SEED PLAYERS FRAMES N  plays the recording of make, and writes its totals
bots TARGET                  reads a recording, and writes one in which a bot
                             walks the shortest way to spawn TARGET
check                        reads a recording and what follows it, and says
                             whether that is its output
audit                        reads the lines of a map and the log of a match
                             after it, as feed writes it, and says whether it
                             is right
help, --help                 writes this
version, --version           writes the version, and the kit it was proved with

N is 1 to 16, SEED any number of 64 bits, PLAYERS 1 to 64, FRAMES 1 to 100000
(for match 1 to 2000) and TARGET 0 to 63, in decimal digits.

status  meaning               line on standard error
0       done                  none
1       recording refused     recording refused: line L, fault F
2       words refused         words refused
3       a read failed         read fault
4       a write failed        write fault
5       not enough memory     out of memory
6       wrong output or log   transcript refused: line L
7       no way to the spawn   no way: fault F

Read on in README.md; docs/FORMATS.md has the formats and the faults.
";

/// What `version` writes: the program's version, and the kit that it was proved with.
pub const VERSION: &[u8] = b"arena_cli 1.0.0, proved with a rattle-kit of logic dac8208d650f15bf\n";

/// Writes a text that explains the program. It takes no memory.
pub fn explain<K: Sink>(alloc: Global, text: &[u8], sink: &mut K) -> Report
    ensures explained { IsExplained K.Sink text.now sink.old sink.new result }
    ensures memory { result.status ≡ 5 → ⊥ }
    ensures counts { Counts 4 (K.faults sink.old) (K.faults sink.new) result.status }
    ensures orderless { result.order ≡ None }
{
    match write_whole(sink, text) {
        Ok(()) => Report::of_status_alone(alloc, Status::Done),
        Err(_) => Report::of_status_alone(alloc, Status::WriteFault),
    }
}
