use entity_recs::{Cmd, Entry};
use move_journal::Log as EntryLog;
use std::alloc::{AllocError, Global};
use std::marker::Model;

/// The commands that a seat has committed, with their entries, and the room for as many as it may commit.
#[derive(Drop)]
pub struct SeatLog {
    commands: Vec<Cmd>,
    entries: EntryLog,
}

impl Model for SeatLog {
    ghost use Rattle.core_machine.specs.SeatLogs.{LogView};

    ghost Value = { LogView };

    ghost use Rattle.std.specs.Prelude.{vec_capacity};
    ghost use Rattle.core_machine.specs.SeatLogs.{items_of, IsLog};

    ghost view = { λ l. record { room = l.entries.room; items = items_of l.commands.items l.entries.entries } };

    ghost invariant = { λ l. IsLog l.entries.room (vec_capacity l.commands) l.commands.items l.entries.entries };
}

impl SeatLog {
    ghost use Rattle.std.specs.Prelude.{◌≡◌, ◌<◌, [], ◌∷◌, ◌++◌, length, map, IfOk, vec_capacity};
    ghost use Rattle.entity_recs.specs.Commands.{command_of};
    ghost use Rattle.entity_recs.specs.Histories.{commands_of};
    ghost use Rattle.move_journal.specs.Logs.{journal_view};
    ghost use Rattle.core_seats.specs.Logs.{entries_of};

    /// No command, with room for this many.
    pub fn new(alloc: Global, room: u32) -> Result<SeatLog, AllocError>
        ensures { IfOk result (λ l. l ≡ record { room = room; items = [] }) }
    {
        Ok(SeatLog {
            commands: Vec::with_capacity(alloc, room as usize)?,
            entries: EntryLog::new(alloc, room)?,
        })
    }

    /// The commands, in the order in which they were committed.
    pub fn commands(&self) -> &[Cmd]
        ensures { map command_of result.now ≡ commands_of self.now.items }
    {
        self.commands.as_slice()
    }

    /// The entries, in the order in which the commands were committed.
    pub fn entries(&self) -> &[Entry]
        ensures { result.now ≡ entries_of self.now.items }
    {
        self.entries.as_slice()
    }

    /// Puts a command last, with its entry. It takes no memory.
    pub fn push(&mut self, cmd: Cmd, entry: Entry)
        requires { length self.old.items < self.old.room }
        ensures { self.new ≡ record self.old {
          items = self.old.items ++ record {
            command = command_of cmd;
            entry
                = entry;
          } ∷ [];
        } }
    {
        self.commands.push_reserved(cmd);
        self.entries.push(entry);
    }

    /// The entries as a list of their own, in the order in which the commands were committed, with the same room. It
    /// takes no memory.
    pub fn into_entries(self) -> EntryLog
        ensures { result ≡ journal_view (entries_of self.items) self.room }
    {
        self.entries
    }
}
