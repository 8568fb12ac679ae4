ghost use Rattle.std.specs.Prelude.{◌≡◌, ◌≤◌, ◌+ℤ◌, ◌-ℤ◌, pos, unsigned_abs, FitsSigned};
ghost use Rattle.std.specs.Int.{w32, int_min, int_max};
ghost use Rattle.arena_geo.specs.Boxes.{box_moved_by};
ghost use Rattle.arena_map.specs.Positions.{upwards};
ghost use Rattle.entity_recs.specs.Kinds as kinds;
ghost use Rattle.entity_recs.specs.Records.{IsRecord};
ghost use Rattle.entity_recs.specs.Bodies.{body_of};
ghost use Rattle.world_physics.specs.LiftSteps as steps;
ghost use Rattle.world_physics.specs.LiftSteps.{IsHeight, IsOnItsWay, IsStep, is_carried, stands_on, step_of};

use arena_geo::{Aabb, Vec3};
use arena_map::Lift;
use entity_recs::{Kind, Rec, body_box};

/// The step of a lift in one frame: its record before it and after it.
#[derive(Clone, Copy, Debug)]
pub struct LiftStep {
    /// The lift before the step.
    pub before: Rec,
    /// The lift after the step.
    pub after: Rec,
    /// How far up the step is, in sub-units; below 0 where the lift falls.
    pub up: i32,
}

/// How high a lift is over its lowest place.
fn height(lift: &Lift, r: &Rec) -> i32
    requires { IsOnItsWay lift.now r.now }
    ensures { result ≡ steps.height_of lift.now r.now }
{
    r.origin.z - lift.low
}

/// How high a lift is after it has risen from this height, at most as high as its rise.
fn height_after_rise(lift: &Lift, height: i32) -> i32
    requires { IsHeight lift.now height }
    ensures { result ≡ int_min (height +ℤ lift.now.speed) lift.now.rise }
{
    (height + lift.speed).min(lift.rise)
}

/// How high a lift is after it has fallen from this height, at least 0.
fn height_after_fall(lift: &Lift, height: i32) -> i32
    requires { IsHeight lift.now height }
    ensures { result ≡ int_max (height -ℤ lift.now.speed) (pos 0) }
{
    (height - lift.speed).max(0)
}

/// How high a lift is over its lowest place after its step: up to its rise where it rises, down to 0 where it falls.
fn next_height(lift: &Lift, r: &Rec) -> i32
    requires { IsOnItsWay lift.now r.now }
    ensures { result ≡ steps.next_height lift.now r.now }
{
    let height = height(lift, r);
    if r.state == 0 {
        height_after_rise(lift, height)
    } else {
        height_after_fall(lift, height)
    }
}

/// How far up a lift's step is, which takes it to the next height; below 0 where it falls.
fn distance_up(lift: &Lift, r: &Rec, next: i32) -> i32
    requires way { IsOnItsWay lift.now r.now }
    requires next { next ≡ steps.next_height lift.now r.now }
    ensures { result ≡ steps.distance_up lift.now r.now }
{
    next - height(lift, r)
}

/// The state of a lift that is so high after its step: from its rise on it falls, from 0 on it rises, and in between it
/// goes on as before.
fn next_state(lift: &Lift, r: &Rec, next: i32) -> u64
    requires { next ≡ steps.next_height lift.now r.now }
    ensures { result ≡ steps.next_state lift.now r.now }
{
    if next == lift.rise {
        1
    } else if next == 0 {
        0
    } else {
        r.state
    }
}

/// The record so far higher.
pub fn record_raised_by(r: &Rec, up: i32) -> Rec
    requires { FitsSigned w32 (r.now.origin.z +ℤ up) }
    ensures { result ≡ steps.record_raised_by r.now up }
{
    let origin = Vec3 {
        z: r.origin.z + up,
        ..r.origin
    };
    Rec { origin, ..*r }
}

/// The body of a record, so far higher.
pub fn raised_body(r: &Rec, up: i32) -> Aabb
    requires record { IsRecord r.now }
    requires far { unsigned_abs up ≤ 2560 }
    ensures { result ≡ box_moved_by (body_of r.now) (upwards up) }
{
    body_box(r).shifted(Vec3 { x: 0, y: 0, z: up })
}

/// Whether the kind is a player's.
fn is_player(kind: Kind) -> bool
    ensures { result ≡ kinds.is_player kind }
{
    match kind {
        Kind::Player => true,
        Kind::Ammo | Kind::Gem | Kind::Teleporter | Kind::Goal | Kind::Lift => false,
    }
}

impl LiftStep {
    /// The step of the lift with this record, which is on its way.
    pub fn of(lift: &Lift, r: &Rec) -> LiftStep
        requires { IsOnItsWay lift.now r.now }
        ensures { result ≡ step_of lift.now r.now }
    {
        let next = next_height(lift, r);
        let up = distance_up(lift, r, next);
        let after = Rec {
            state: next_state(lift, r, next),
            ..record_raised_by(r, up)
        };
        LiftStep {
            before: *r,
            after,
            up,
        }
    }

    /// Whether a player with this record stands on the lift: its body, moved down by 1, overlaps the lift.
    fn is_under(&self, r: &Rec) -> bool
        requires step { IsStep self.now }
        requires record { IsRecord r.now }
        ensures { result ≡ stands_on self.now.before r.now }
    {
        raised_body(r, -1).overlaps(&body_box(&self.before))
    }

    /// Whether the step carries the record: that of a player that stands on the lift, or whose body overlaps the lift's
    /// new box.
    pub fn carries(&self, r: &Rec) -> bool
        requires step { IsStep self.now }
        requires record { IsRecord r.now }
        ensures { result ≡ is_carried self.now r.now }
    {
        is_player(r.kind) && (self.is_under(r) || body_box(r).overlaps(&body_box(&self.after)))
    }

    /// Whether the record is that of a solid that stays where it is: another lift, or a player that isn't carried.
    pub fn leaves(&self, r: &Rec) -> bool
        requires step { IsStep self.now }
        requires record { IsRecord r.now }
        ensures { result ≡ steps.stays self.now r.now }
    {
        r.kind.is_solid() && r.id != self.before.id && !self.carries(r)
    }
}
