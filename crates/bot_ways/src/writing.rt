ghost use Rattle.std.specs.Prelude.{◌≡◌, ◌≢◌, ◌+◌, ◌≤◌, length, Err, IfOk, OnOk};
ghost use Rattle.std.specs.Io.KnownBytes.{Appends};
ghost use Rattle.edge_io.specs.Counts.{HasRisen};
ghost use Rattle.edge_io.specs.Writes.{AppendsPart};
ghost use Rattle.bot_ways.specs.declared.plan_stop.PlanStop.TheVariants.{WriteFault, NoMemory};
ghost use Rattle.bot_ways.specs.PlanTexts as texts;
ghost use Rattle.bot_ways.specs.PlanTexts.{IsPlan, least_line};

use crate::certificate::{push_least, push_length, push_way};
use crate::lists::LeastList;
use crate::map_text::push_map;
use crate::plan::Plan;
use crate::plan_stop::PlanStop;
use crate::plan_text::PlanText;
use crate::walk_text::push_walk;
use arena_map::ArenaMap;
use edge_io::{Sink, write_whole};
use packet_read::Packet;
use std::alloc::{AllocError, Global};

/// The most bytes that are written of a plan, whatever the map.
pub const MOST_PLAN_BYTES: usize = 307_749;

/// The text of a plan.
fn plan_text(alloc: Global, map: &ArenaMap, plan: &Plan) -> Result<PlanText, AllocError>
    requires { IsPlan map.now plan.now }
    ensures { IfOk result (λ text. text ≡ texts.plan_text map.now plan.now) }
{
    let mut text = PlanText::new(alloc)?;
    push_map(&mut text, map)?;
    text.push_frame(&Packet::Join)?;
    let length = push_walk(&mut text, map, plan.way.as_slice())?;
    text.push(b"end\n")?;
    push_way(&mut text, plan.way.as_slice())?;
    push_length(&mut text, length)?;
    push_least(&mut text, &plan.least)?;
    Ok(text)
}

// The text is put together in memory and written by one call, so that lack of memory comes before the first write. It
// has at most 307,749 bytes.
/// Writes what a plan with a way comes to: a recording in which one bot walks along it, and after its line `end` the way,
/// its length and the least lengths, which show that no way is shorter. A reader of recordings doesn't look there.
///
/// [`PlanStop::WriteFault`] comes only where the sink's count of faults rose, and never where the sink is sure to have
/// room for the text; the sink has then taken a front of it, but not all. [`PlanStop::NoMemory`] comes before the first
/// write, and the sink is as it was.
pub fn write_plan<K: Sink>(
    alloc: Global,
    map: &ArenaMap,
    plan: &Plan,
    sink: &mut K,
) -> Result<(), PlanStop>
    requires { IsPlan map.now plan.now }
    ensures ok { OnOk result (Appends (K.taken sink.old) (K.taken sink.new) (texts.plan_text map.now plan.now)) }
    ensures write_fault { result ≡ Err WriteFault
        → AppendsPart (K.taken sink.old) (K.taken sink.new) (texts.plan_text map.now plan.now) }
    ensures no_memory { result ≡ Err NoMemory → sink.new ≡ sink.old }

    ensures later { K.faults sink.old ≤ K.faults sink.new }
    ensures fault { result ≡ Err WriteFault → HasRisen (K.faults sink.old) (K.faults sink.new) }
    ensures uncounted { OnOk result (K.faults sink.new ≡ K.faults sink.old) }
    ensures sure { length (texts.plan_text map.now plan.now) ≤ K.room sink.old → result ≢ Err WriteFault }
    ensures room { OnOk result (K.room sink.old ≤ K.room sink.new + length (texts.plan_text map.now plan.now)) }
{
    let text = plan_text(alloc, map, plan)?;
    write_whole(sink, text.as_slice())?;
    Ok(())
}

/// The line of the least lengths.
fn least_text(alloc: Global, least: &LeastList) -> Result<PlanText, AllocError>
    ensures { IfOk result (λ text. text ≡ least_line least.now) }
{
    let mut text = PlanText::new(alloc)?;
    push_least(&mut text, least)?;
    Ok(text)
}

/// Writes the line of the least lengths alone, which shows where no way leads.
///
/// The stops are those of [`write_plan`], over this line.
pub fn write_least<K: Sink>(alloc: Global, least: &LeastList, sink: &mut K) -> Result<(), PlanStop>
    ensures ok { OnOk result (Appends (K.taken sink.old) (K.taken sink.new) (least_line least.now)) }
    ensures write_fault { result ≡ Err WriteFault
        → AppendsPart (K.taken sink.old) (K.taken sink.new) (least_line least.now) }
    ensures no_memory { result ≡ Err NoMemory → sink.new ≡ sink.old }

    ensures later { K.faults sink.old ≤ K.faults sink.new }
    ensures fault { result ≡ Err WriteFault → HasRisen (K.faults sink.old) (K.faults sink.new) }
    ensures uncounted { OnOk result (K.faults sink.new ≡ K.faults sink.old) }
    ensures sure { length (least_line least.now) ≤ K.room sink.old → result ≢ Err WriteFault }
    ensures room { OnOk result (K.room sink.old ≤ K.room sink.new + length (least_line least.now)) }
{
    let text = least_text(alloc, least)?;
    write_whole(sink, text.as_slice())?;
    Ok(())
}
