ghost use Rattle.std.specs.Prelude.{◌≡◌, IsSome, IsSomeAnd};
ghost use Rattle.std.specs.Arc.{arc_value};
ghost use Rattle.move_phase.specs.Turns.{HasPass, IsTurnOf, MayWork, HasWorked};

use crate::frame_moves::FrameMoves;
use crate::serve::run_pass;
use arena_actions::MapAction;
use crew::Task;
use shared_moves::{Gate, Pass};
use std::alloc::Global;
use std::sync::{Arc, Wait};

/// A pass, and the frame whose moves it serves.
#[derive(Drop)]
pub struct Work<'a> {
    pub frame: Arc<FrameMoves<'a>, Global>,
    pub pass: Pass<MapAction>,
}

/// What a thread of a crew runs: a pass serves its moves of a frame, and each move calls the gate. Between two rounds a
/// helper has a turn without a pass.
#[derive(Drop)]
pub struct Turn<'a, G: Gate> {
    pub(crate) work: Option<Work<'a>>,
    pub(crate) gate: &'a G,
}

impl<'a, G: Gate> Turn<'a, G> {
    /// A turn without a pass.
    pub(crate) fn spare(gate: &'a G) -> Turn<'a, G> {
        Turn { work: None, gate }
    }

    /// The turn of this pass.
    pub(crate) fn of<R: Wait>(
        rt: &R,
        frame: &Arc<FrameMoves<'a>, Global>,
        pass: Pass<MapAction>,
        gate: &'a G,
    ) -> Turn<'a, G>
        ensures { IsTurnOf (arc_value frame.now) pass result }
    {
        let frame = another_owner(rt, frame);
        Turn {
            work: Some(Work { frame, pass }),
            gate,
        }
    }

    /// Its pass.
    pub(crate) fn into_pass(self) -> Pass<MapAction>
        requires { IsSome self.work }
        ensures { HasPass self.entry result }
    {
        let Turn { work, gate: _gate } = self;
        let Work {
            frame: _frame,
            pass,
        } = work.unwrap();
        pass
    }
}

/// One more owner of the frame. It waits for ever where there are 2^63 - 1 already.
fn another_owner<'a, R: Wait>(
    rt: &R,
    frame: &Arc<FrameMoves<'a>, Global>,
) -> Arc<FrameMoves<'a>, Global>
    ensures { arc_value result ≡ arc_value frame.now }
{
    for _ in rt.forever() {
        if let Ok(frame) = Arc::try_clone(frame) {
            return frame;
        }
    }
    unreachable!()
}

/// The pass serves its share of the frame's moves.
fn serve_share<'a, R: Wait, G: Gate>(rt: &R, work: &mut Work<'a>, gate: &G)
    requires { MayWork work.old }
    ensures { HasWorked work.old work.new }
{
    let frame = &work.frame;
    let shared = frame.shared.as_ref().unwrap();
    run_pass(
        rt,
        shared,
        &mut work.pass,
        frame.moves.as_slice(),
        frame.workers,
        gate,
    );
}

impl<'a, G: Gate> Task for Turn<'a, G> {
    ghost use Rattle.move_phase.specs.Turns.{MayRun, HasRun};

    ghost may_run = { MayRun };

    ghost changes = { HasRun };

    fn run<R: Wait>(&mut self, rt: &R) {
        if let Some(work) = &mut self.work {
            serve_share(rt, work, self.gate);
        }
    }
}
