ghost use Rattle.std.specs.Prelude.{◌≡◌, None, []};
ghost use Rattle.demo_make.specs.GeneratedFrames.{IsInRange};
ghost use Rattle.arena_engine.specs.Endings.{Counts};
ghost use Rattle.arena_engine.specs.Making.{IsMade, IsResent, IsBare, status_of};

use crate::report::Report;
use crate::status::Status;
use demo_make::{MakeStop, make, resend};
use edge_io::Sink;
use std::alloc::Global;

/// The report of a recording that was written, or wasn't.
pub fn report_of(alloc: Global, written: Result<(), MakeStop>) -> Report
    ensures status { result.status ≡ status_of written }
    ensures bare { IsBare result }
    ensures no_journals { result.all ≡ [] }
    ensures orderless { result.order ≡ None }
{
    let status = match written {
        Ok(()) => Status::Done,
        Err(MakeStop::WriteFault) => Status::WriteFault,
        Err(MakeStop::NoMemory) => Status::NoMemory,
    };
    Report::of_status_alone(alloc, status)
}

/// Writes the recording of this seed.
pub fn write_made<K: Sink>(
    alloc: Global,
    seed: u64,
    players: u8,
    frames: u32,
    sink: &mut K,
) -> Report
    requires { IsInRange players frames }
    ensures made { IsMade K.Sink seed players frames sink.old sink.new result }
    ensures counts { Counts 4 (K.faults sink.old) (K.faults sink.new) result.status }
    ensures orderless { result.order ≡ None }
{
    report_of(alloc, make(alloc, seed, players, frames, sink))
}

/// Writes the recording of this seed in which commands are resent.
pub fn write_resent<K: Sink>(
    alloc: Global,
    seed: u64,
    players: u8,
    frames: u32,
    sink: &mut K,
) -> Report
    requires { IsInRange players frames }
    ensures made { IsResent K.Sink seed players frames sink.old sink.new result }
    ensures counts { Counts 4 (K.faults sink.old) (K.faults sink.new) result.status }
    ensures orderless { result.order ≡ None }
{
    report_of(alloc, resend(alloc, seed, players, frames, sink))
}
