ghost use Rattle.std.specs.Prelude.{◌≡◌, ◌<◌, ◌≤◌, Bool, true, false, Some, All, length};
ghost use Rattle.box_trace.specs.declared.hit.TheConstants.{MOST_SOLIDS};
ghost use Rattle.entity_recs.specs.Records.{IsRecord};
ghost use Rattle.entity_recs.specs.Commands.{command_of};
ghost use Rattle.trigger_rules.specs.Touching.{walk_of};
ghost use Rattle.shot_rules.specs.Shots as shots;

use crate::aiming::{is_set, shot_box, shot_way};
use crate::meeting::target;
use crate::numbers::{DAMAGE, DOWN, FIRE, FRAMES_DOWN, LEAPT_BIT};
use arena_geo::Aabb;
use entity_recs::{Cmd, IdList, Kind, LIST_LEN, NewState, Rec, StateList};

/// Whether a player is down in this frame: it has fallen, and moves again in a later one.
pub fn is_down(me: &Rec, frame: u32) -> bool
    ensures { result ≡ shots.is_down me.now frame }
{
    me.state >= DOWN && u64::from(frame) < me.state - DOWN
}

/// Whether the player may fire, wherever it aims: the button is pressed, it has ammunition, its move didn't end in a
/// teleporter, and fewer than 8 items were taken.
fn may_fire(me: &Rec, cmd: &Cmd, got: &IdList) -> bool
    ensures { result ≡ shots.may_fire (command_of cmd.now) me.now got.now }
{
    is_set(cmd.buttons, FIRE)
        && me.ammo > 0
        && !is_set(me.flags, LEAPT_BIT)
        && got.as_slice().len() < LIST_LEN
}

/// Whether a shot may hurt who has this record: a player that isn't down, with a state below 100.
fn stands(r: &Rec) -> bool
    ensures { result ≡ shots.stands r.now }
{
    r.kind == Kind::Player && r.state < DOWN
}

/// A player that isn't down is hit by a shot of another.
fn hit(me: &mut Rec, r: &Rec, frame: u32, states: &mut StateList, got: &mut IdList)
    requires stands { shots.stands r.now ≡ true }
    requires lists { length states.old ≡ length got.old }
    requires room { length got.old < 8 }
    ensures { (ended : Bool) → walk_of me.new states.new got.new ended
        ≡ shots.after_hit frame (walk_of me.old states.old got.old ended) r.now }
{
    let mut state = r.state + DAMAGE;
    if state >= DOWN {
        state = DOWN + u64::from(frame) + FRAMES_DOWN;
        me.score = me.score.saturating_add(1);
    }
    // Both lists are of one length, which is below the greatest.
    let _has_room = states.push(NewState { id: r.id, state });
    let _has_room = got.push_first(r.id);
}

/// The shot meets this record first.
fn meet(me: &mut Rec, r: &Rec, frame: u32, states: &mut StateList, got: &mut IdList)
    requires lists { length states.old ≡ length got.old }
    requires room { length got.old < 8 }
    ensures { (ended : Bool) → walk_of me.new states.new got.new ended
        ≡ shots.after_meeting frame (walk_of me.old states.old got.old ended) (Some r.now) }
{
    if stands(r) {
        hit(me, r, frame, states, got);
    }
}

/// The shot of a player's move, after the move and what it touched: whether one is fired.
///
/// One is fired where bit 1 of the buttons is set, the player has ammunition, the wish has a length of 1 or more, bit 1 of
/// the flags isn't set, and fewer than 8 items were taken in this move. Then one of the ammunition is gone, and the box of
/// the shot goes from the player's origin along the wish, 65,536 sub-units at most, until a solid stops it: `fixed`, the
/// walls and blocks, come first, and then the bodies of the live solids among `near`, the other live records in rising id.
///
/// Where a player stops it whose state is below 100, that state grows by 25, or becomes 140 and the number of the frame
/// where that would be 100 or more; the shooter then gets a point. The new state is put last into `states`, and the id
/// first into `got`, which are those that `touch_all` left. It takes no memory.
pub fn fire(
    me: &mut Rec,
    cmd: &Cmd,
    fixed: &[Aabb],
    near: &[Rec],
    states: &mut StateList,
    got: &mut IdList,
) -> bool
    requires record { IsRecord me.old }
    requires few { length fixed.now ≤ MOST_SOLIDS }
    requires records { All IsRecord near.now }
    requires lists { length states.old ≡ length got.old }
    ensures fired { result ≡ shots.is_fired (command_of cmd.now) (walk_of me.old states.old got.old false) }
    ensures walk { (ended : Bool) → walk_of me.new states.new got.new ended
        ≡ shots.after_shot fixed.now near.now (command_of cmd.now) (walk_of me.old states.old got.old ended) }
{
    if !may_fire(me, cmd, got) {
        return false;
    }
    let Some(way) = shot_way(cmd) else {
        return false;
    };
    me.ammo -= 1;
    if let Some(r) = target(&shot_box(me.origin), way, fixed, near) {
        meet(me, &r, cmd.frame, states, got);
    }
    true
}
