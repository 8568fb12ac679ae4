ghost use Rattle.arena_actions.specs.MapActions.{IsActionOf};
ghost use Rattle.demo_make.specs.GeneratedMap.{generated_map};

use arena_actions::MapAction;
use match_play::{MatchGame, Totals, match_action, play_match};
use move_journal::Journal;
use move_phase::Runners;
use playback::Host;
use shared_moves::NoGate;
use std::alloc::AllocGlobal;
use std::process::Abort;
use std::sync::Wait;
use std::test::Fail;
use std::thread::Threads;

/// In one frame each of two players has joined and moved once, and nothing was taken or scored.
fn expect_totals(rt: &impl Abort, totals: &Totals) {
    assert_eq!(rt; totals.frames, 1);
    assert_eq!(rt; totals.joins, 2);
    assert_eq!(rt; totals.moves, 2);
    assert_eq!(rt; totals.refused, 0);
    assert_eq!(rt; totals.items, 0);
    assert_eq!(rt; totals.score, 0);
}

/// There is one journal, and it has two entries.
fn expect_journals(rt: &impl Abort, journals: &[Journal]) {
    assert_eq!(rt; journals.len(), 1);
    for journal in journals {
        assert_eq!(rt; journal.as_slice().len(), 2);
    }
}

/// Plays a match of two players and one frame in this action's arena, and looks at its totals and its journals.
fn expect_match<'a>(
    rt: &(impl AllocGlobal + Abort + Threads + Wait + Sync),
    gate: &'a NoGate,
    action: &'a MapAction,
) -> Result<(), Fail>
    requires { IsActionOf generated_map action.now }
{
    let mut game = MatchGame::new(rt.alloc(), action)?;
    let host = Host {
        rt,
        alloc: rt.alloc(),
        workers: 1,
    };
    let mut runners = Runners::alone(gate);
    let totals = play_match(&host, &mut runners, 7, 2, 1, &mut game)?;
    expect_totals(rt, &totals);
    expect_journals(rt, game.into_journals().as_slice());
    Ok(())
}

/// Each of two players joins and moves once, and neither comes near an item or the goal in so short a time.
#[test]
fn two_players_and_one_frame(rt: HostRuntime) -> Result<(), Fail> {
    let action = match_action(rt.alloc())?;
    expect_match(&rt, &NoGate, &action)
}
