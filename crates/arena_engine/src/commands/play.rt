ghost use Rattle.std.specs.Prelude.{◌≡◌, None};
ghost use Rattle.arena_engine.specs.Endings.{Ends};
ghost use Rattle.arena_engine.specs.Played.{IsPlayed, IsFed};
ghost use Rattle.arena_engine.specs.Reports.{IsReportOf};

use crate::event_loop::play;
use crate::feeding::Feeding;
use crate::played::Played;
use crate::report::Report;
use crate::status::Status;
use edge_io::{Sink, Source};
use move_journal::JournalList;
use playback::Host;
use shared_moves::Gate;
use std::alloc::Global;
use std::sync::Wait;
use std::thread::Threads;

/// The report of a recording whose playing ended so.
fn report_of(alloc: Global, played: Played) -> Report
    ensures report { IsReportOf played result }
    ensures served { result.status ≡ 2 → ⊥ }
{
    let all = JournalList::new(alloc);
    let Played { ended, last, order } = played;
    match ended {
        Ok(()) => Report::of_status(Status::Done, last, all).with_order(order),
        Err(stop) => Report::of_stop(stop, last, all).with_order(order),
    }
}

/// Plays a recording from the source on these workers, and writes its output to the sink. The report has how that
/// ended.
pub fn play_recording<R: Threads + Wait + Sync, S: Source, K: Sink, G: Gate + Sync>(
    host: &Host<R>,
    gate: &G,
    source: &mut S,
    sink: &mut K,
) -> Report
    ensures played { IsPlayed S.Source K.Sink host.now.workers source.old source.new sink.old sink.new result }
    ensures ends { Ends S.Source K.Sink source.old source.new sink.old sink.new result }
    ensures served { result.status ≡ 2 → ⊥ }
    ensures orderless { result.order ≡ None }
{
    let played = play(host, gate, Feeding::Recorded, source, sink);
    report_of(host.alloc, played)
}

/// Plays a recording whose packets client threads send, in the same way.
pub fn feed_recording<R: Threads + Wait + Sync, S: Source, K: Sink, G: Gate + Sync>(
    host: &Host<R>,
    gate: &G,
    source: &mut S,
    sink: &mut K,
) -> Report
    ensures fed { IsFed S.Source K.Sink host.now.workers source.old source.new sink.old sink.new result }
    ensures ends { Ends S.Source K.Sink source.old source.new sink.old sink.new result }
    ensures served { result.status ≡ 2 → ⊥ }
{
    let played = play(host, gate, Feeding::Threaded, source, sink);
    report_of(host.alloc, played)
}
