ghost use Rattle.std.specs.Prelude.{◌≡◌, ◌<◌, ◌∷◌, [], true, length, All, IfOk};
ghost use Rattle.entity_recs.specs.declared.kind.Kind.TheVariants.{Player};
ghost use Rattle.entity_recs.specs.Records.{IsRecord, with_state};
ghost use Rattle.arena_actions.specs.MapActions.{meaning_in};
ghost use Rattle.world_tree.specs.Live.{live_in};
ghost use Rattle.core_steps.specs.Nodes.{has};
ghost use Rattle.ruled_words.specs.Passes.{fixed_in, IsOwn};
ghost use Rattle.trial_passes.specs.Trials.{IsFree, IsResting};

use super::{arena, at};
use arena_actions::MapAction;
use arena_geo::Vec3;
use arena_map::{ArenaMap, MapLine, MapRefusal};
use entity_recs::{Action, Cmd, Entry, Kind, PLAYER_MAXS, PLAYER_MINS, Rec, body_box};
use region_locks::{NodeTable, Pass};
use shared_moves::{Again, Holder};
use std::alloc::{AllocGlobal, Global};
use std::process::Abort;
use std::test::Fail;
use trial_passes::{MOST_CALLS, close_both, finish, give_up, go, ran, refused, table_of_two, take};
use world_tree::World;

/// A player with ammunition, in slot 0, whose move pass 0 runs.
const FIRST: Rec = Rec {
    id: 0,
    kind: Kind::Player,
    origin: Vec3 {
        x: 40_000,
        y: -98_304,
        z: 6_144,
    },
    mins: PLAYER_MINS,
    maxs: PLAYER_MAXS,
    vel: Vec3::ZERO,
    flags: 0,
    ammo: 20,
    carry: 0,
    score: 0,
    seq: 0,
    state: 0,
};

/// Another one, in slot 1, whose move pass 1 runs.
const SECOND: Rec = Rec {
    id: 1,
    origin: Vec3 {
        x: -40_000,
        y: -98_304,
        z: 6_144,
    },
    ..FIRST
};

/// Who stands between them, in slot 3, whose move pass 1 runs too.
const TARGET: Rec = Rec {
    id: 3,
    origin: Vec3 {
        x: 0,
        y: -98_304,
        z: 6_144,
    },
    ammo: 0,
    ..FIRST
};

/// The leaves of the first shooter's move: 8 to 12 and 14. Those of the second's are 9 and 11 to 15, and those of the
/// target's are 8 to 15.
const FIRST_LEAVES: u32 = 0x5f00;

/// The node of leaf 8.
const NODE_OF_LEAF_8: u8 = 23;

/// A move of 50 ms with a wish along x and the button for shots.
fn shot(slot: u8, wish_x: i16) -> Cmd
    requires { slot < 64 }
    ensures { result.slot ≡ slot }
{
    Cmd {
        slot,
        seq: 1,
        frame: 0,
        ms: 50,
        wish_x,
        wish_y: 0,
        buttons: 2,
    }
}

/// The action of an arena where players shoot.
fn shooting(alloc: Global) -> Result<MapAction, MapRefusal> {
    let mut map = ArenaMap::new(alloc, &arena())?;
    map.add(&MapLine::Shots)?;
    Ok(MapAction::new(map))
}

/// Whether the action takes this record of a player: its body is inside the arena.
fn is_taken(action: &MapAction, r: &Rec) -> bool
    requires kind { r.now.kind ≡ Player }
    requires record { IsRecord r.now }
    requires score { r.now.score ≡ 0 }
    requires seq { r.now.seq ≡ 0 }
    ensures { result ≡ true → (meaning_in action.now).takes r.now ≡ true }
{
    action.map().bounds().contains(&body_box(r))
}

/// The world of two shooters, and of the target between them, which has this damage.
fn world_with(alloc: Global, action: &MapAction, damage: u64) -> Result<World, Fail>
    ensures live { IfOk result (λ w. live_in w.records ≡ FIRST ∷ SECOND ∷ with_state TARGET damage ∷ []) }
    ensures taken { IfOk result (λ w. All (λ r. (meaning_in action.now).takes r ≡ true) (live_in w.records)) }
{
    let target = Rec {
        state: damage,
        ..TARGET
    };
    if !is_taken(action, &FIRST) || !is_taken(action, &SECOND) || !is_taken(action, &target) {
        return Err("outside".into());
    }
    let map = action.map();
    let start = [FIRST, SECOND, target];
    Ok(World::new(alloc, map.bounds(), map.depth(), &start)?)
}

/// Gives pass 0 the first shooter's command: a shot towards lower x.
fn begin<A: Action>(table: &NodeTable<A>, pass: &mut Pass<A>)
    requires two { length table.now.rooms ≡ 2 }
    requires live { has (fixed_in A.meaning table.now).start.ids 0 ≡ true }
    requires free { IsFree (fixed_in A.meaning table.now) (length table.now.rooms) table.now.table 0
        pass.old }
    ensures { IsOwn A.meaning table.now pass.new }
{
    table.begin(pass, shot(0, -1));
}

/// Makes the calls of pass 0 up to the commit, and gives the entry. Nothing is written yet.
fn commit<A: Action>(table: &NodeTable<A>, pass: &mut Pass<A>) -> Result<Entry, Fail>
    requires { IsOwn A.meaning table.now pass.old }
    ensures { IfOk result (λ _. IsOwn A.meaning table.now pass.new) }
{
    for _ in 0..MOST_CALLS {
        if let Some(entry) = go(table, pass)? {
            return Ok(entry);
        }
    }
    Err("no end".into())
}

/// Gives pass 1 the target's command, and loads the target's record.
fn load_target<A: Action>(table: &NodeTable<A>, pass: &mut Pass<A>) -> Rec
    requires two { length table.now.rooms ≡ 2 }
    requires live { has (fixed_in A.meaning table.now).start.ids 3 ≡ true }
    requires free { IsFree (fixed_in A.meaning table.now) (length table.now.rooms) table.now.table 1
        pass.old }
    ensures { IsOwn A.meaning table.now
        pass.new }
{
    table.begin(pass, shot(3, 0));
    table.load_rec(pass, 3)
}

/// The target's record as pass 1 finds it. The target's own move is refused its first leaf, which pass 0 holds, and is
/// given up.
fn target_now<A: Action>(
    rt: &impl Abort,
    table: &NodeTable<A>,
    pass: &mut Pass<A>,
) -> Result<Rec, Fail>
    requires two { length table.now.rooms ≡ 2 }
    requires live { has (fixed_in A.meaning table.now).start.ids 3 ≡ true }
    requires free { IsFree (fixed_in A.meaning table.now) (length table.now.rooms) table.now.table 1
        pass.old }
    ensures { IfOk result (λ _. IsFree (fixed_in A.meaning table.now) (length table.now.rooms)
        table.now.table 1 pass.new) }
{
    let target = load_target(table, pass);
    let holder = take(table, pass, NODE_OF_LEAF_8)?.ok_or("a holder")?;
    let first = Holder {
        number: 0,
        leaves: FIRST_LEAVES,
    };
    assert_eq!(rt; holder, first);
    give_up(table, pass)?;
    if pass.number() != 1 {
        return Err("another number".into());
    }
    Ok(target)
}

/// An entry is of a move of 6 along x that ends here, and the target was hit, or nobody was.
fn expect_entry(rt: &impl Abort, entry: &Entry, whose: (u64, u8), x: i32, hits: bool) {
    assert_eq!(rt; (entry.place, entry.slot, entry.seq), (whose.0, whose.1, 1));
    assert_eq!(rt; entry.reply.origin, at(x, -98_304, 6_144));
    let got = entry.reply.got.as_slice();
    if hits {
        assert_eq!(rt; got, [3].as_slice());
    } else {
        assert!(rt; got.is_empty());
    }
}

/// Runs the first shooter's command up to its commit. Before its stores the target is as it was, and the second
/// shooter's command is refused the first of the leaves that it wants.
fn hold_first<A: Action>(
    rt: &impl Abort,
    table: &NodeTable<A>,
    first: &mut Pass<A>,
    second: &mut Pass<A>,
    damage: u64,
) -> Result<Entry, Fail>
    requires two { length table.now.rooms ≡ 2 }
    requires one { has (fixed_in A.meaning table.now).start.ids 1 ≡ true }
    requires three { has (fixed_in A.meaning table.now).start.ids 3 ≡ true }
    requires first { IsOwn A.meaning table.now first.old }
    requires second { IsFree (fixed_in A.meaning table.now) (length table.now.rooms) table.now.table
        1 second.old }
    ensures first { IfOk result (λ _. IsOwn A.meaning table.now first.new) }
    ensures second { IfOk result (λ _. IsFree (fixed_in A.meaning table.now)
        (length table.now.rooms) table.now.table 1 second.new) }
{
    let entry = commit(table, first)?;
    assert!(rt; first.unlinks_next());
    let target = target_now(rt, table, second)?;
    assert_eq!(rt;
        target,
        Rec {
            state: damage,
            ..TARGET
        }
    );
    let held = Again::Held {
        leaf: 9,
        holder: 0,
        leaves: FIRST_LEAVES,
    };
    assert_eq!(rt; refused(table, second, shot(1, 1))?, held);
    Ok(entry)
}

/// Runs both shooters' commands, the second one's once the first has given its leaves back, and gives their entries.
fn shoot_both<A: Action>(
    rt: &impl Abort,
    table: &NodeTable<A>,
    first: &mut Pass<A>,
    second: &mut Pass<A>,
    damage: u64,
) -> Result<(Entry, Entry), Fail>
    requires two { length table.now.rooms ≡ 2 }
    requires zero { has (fixed_in A.meaning table.now).start.ids 0 ≡ true }
    requires one { has (fixed_in A.meaning table.now).start.ids 1 ≡ true }
    requires three { has (fixed_in A.meaning table.now).start.ids 3 ≡ true }
    requires first { IsFree (fixed_in A.meaning table.now) (length table.now.rooms) table.now.table
        0 first.old }
    requires second { IsFree (fixed_in A.meaning table.now) (length table.now.rooms) table.now.table
        1 second.old }
    ensures first { IfOk result (λ _. IsResting (fixed_in A.meaning table.now)
        (length table.now.rooms) table.now.table 0 first.new) }
    ensures second { IfOk result (λ _. IsResting (fixed_in A.meaning table.now)
        (length table.now.rooms) table.now.table 1 second.new) }
{
    begin(table, first);
    let one = hold_first(rt, table, first, second, damage)?;
    let _place = finish(table, first)?;
    let two = ran(table, second, shot(1, 1))?;
    Ok((one, two))
}

/// Runs both shooters' commands in a world where the target has this damage, and gives their entries.
fn run_both(
    rt: &(impl AllocGlobal + Abort),
    action: &MapAction,
    world: &mut World,
    damage: u64,
) -> Result<(Entry, Entry), Fail>
    requires live { live_in world.old.records ≡ FIRST ∷ SECOND ∷ with_state TARGET damage ∷ [] }
    requires taken { All (λ r. (meaning_in action.now).takes r ≡ true) (live_in world.old.records) }
{
    let (table, mut first, mut second) = table_of_two(rt.alloc(), action, world, 1)?;
    let entries = shoot_both(rt, &table, &mut first, &mut second, damage)?;
    close_both(rt.alloc(), table, first, second, world)?;
    Ok(entries)
}

/// The shooters have moved by 6 towards each other, each with one shot less and so many points.
fn expect_shooters(rt: &impl Abort, world: &World, points: (u32, u32)) {
    let first = Rec {
        origin: at(39_994, -98_304, 6_144),
        vel: at(-128, 0, 0),
        flags: 1,
        ammo: 19,
        score: points.0,
        seq: 1,
        ..FIRST
    };
    assert_eq!(rt; world.get(0), Some(first));
    let second = Rec {
        origin: at(-39_994, -98_304, 6_144),
        vel: at(128, 0, 0),
        flags: 1,
        ammo: 19,
        score: points.1,
        seq: 1,
        ..SECOND
    };
    assert_eq!(rt; world.get(1), Some(second));
}

/// Both moves were run in their order; the first shot has hit, and the second may have.
fn expect_entries(rt: &impl Abort, one: &Entry, two: &Entry, second_hits: bool) {
    expect_entry(rt, one, (0, 0), 39_994, true);
    expect_entry(rt, two, (1, 1), -39_994, second_hits);
}

/// Both shoot at who has this damage: the first hits, and the second may; then the target is in this state, and the
/// shooters have so many points.
fn check(
    rt: &(impl AllocGlobal + Abort),
    damage: u64,
    second_hits: bool,
    state: u64,
    points: (u32, u32),
) -> Result<(), Fail> {
    let action = shooting(rt.alloc()).map_err(|_| "a map")?;
    let mut world = world_with(rt.alloc(), &action, damage)?;
    let (one, two) = run_both(rt, &action, &mut world, damage)?;
    expect_entries(rt, &one, &two, second_hits);
    expect_shooters(rt, &world, points);
    assert_eq!(rt; world.get(3), Some(Rec { state, ..TARGET }));
    Ok(())
}

#[test]
fn a_shot_waits_for_one_at_the_same_player_that_is_committed(rt: HostRuntime) -> Result<(), Fail> {
    check(&rt, 0, true, 50, (0, 0))
}

#[test]
fn the_second_of_two_shots_fells_the_player(rt: HostRuntime) -> Result<(), Fail> {
    check(&rt, 50, true, 140, (0, 1))
}

#[test]
fn a_shot_after_the_one_that_fells_the_player_scores_nothing(rt: HostRuntime) -> Result<(), Fail> {
    check(&rt, 75, false, 140, (1, 0))
}
