ghost use Rattle.std.specs.Prelude.{◌≡◌, ◌<◌, ◌++◌, length, slice_get, Some, IfOk, OnOk};
ghost use Rattle.entity_recs.specs.Records.{IsRecord};
ghost use Rattle.arena_map.specs.MapLines.{IsWithinLimits};
ghost use Rattle.arena_map.specs.Maps as maps;
ghost use Rattle.bot_ways.specs.PlanTexts as texts;
ghost use Rattle.bot_ways.specs.Things as things;

use crate::plan_text::PlanText;
use arena_geo::Aabb;
use arena_map::{ArenaMap, DEFAULT_BLOCKS, DEFAULT_DEPTH, MapLine};
use box_trace::WALLS;
use entity_recs::{Rec, body_box};
use std::alloc::{AllocError, Global};

/// The blocks of a map in line order.
fn blocks(map: &ArenaMap) -> &[Aabb]
    ensures value { result.now ≡ map.now.blocks }
    ensures rules { maps.IsMap map.now }
{
    &map.solids()[WALLS..]
}

/// Puts the lines of the blocks last.
fn push_blocks(text: &mut PlanText, map: &ArenaMap) -> Result<(), AllocError>
    ensures { OnOk result (text.new ≡ text.old ++ texts.blocks_text map.now) }
{
    for block in blocks(map) {
        text.push_line(&MapLine::Block {
            lo: block.lo(),
            hi: block.hi(),
        })?;
    }
    Ok(())
}

/// Puts the lines of the spawns last.
fn push_spawns(text: &mut PlanText, map: &ArenaMap) -> Result<(), AllocError>
    ensures { OnOk result (text.new ≡ text.old ++ texts.spawns_text map.now) }
{
    for at in map.spawns() {
        text.push_line(&MapLine::Spawn { at: *at })?;
    }
    Ok(())
}

/// The line of a thing of the map.
fn thing_line(map: &ArenaMap, thing: &Rec) -> MapLine
    requires { IsRecord thing.now }
    ensures { result ≡ things.thing_line thing.now (maps.delay_of map.now thing.now.id) (maps.dest_of map.now thing.now.id)
        (maps.lift_of map.now thing.now.id) }
{
    if let Some(delay) = map.delay_of(thing.id) {
        return MapLine::Item {
            at: thing.origin,
            kind: thing.kind,
            delay,
        };
    }
    let body = body_box(thing);
    let (lo, hi) = (body.lo(), body.hi());
    if let Some(dest) = map.dest_of(thing.id) {
        return MapLine::Teleport { lo, hi, dest };
    }
    match map.lift_of(thing.id) {
        Some(lift) => MapLine::Lift {
            lo,
            hi,
            rise: lift.rise,
            speed: lift.speed,
        },
        None => MapLine::Goal { lo, hi },
    }
}

/// The line of the thing at this place among those of the map.
fn line_at(map: &ArenaMap, place: usize) -> MapLine
    requires { place < length map.now.things }
    ensures value { slice_get map.now.things place ≡ Some result }
    ensures limits { IsWithinLimits result }
{
    let things = map.entities();
    thing_line(map, &things[place])
}

/// Puts the lines of the things last, by their ids.
fn push_things(text: &mut PlanText, map: &ArenaMap) -> Result<(), AllocError>
    ensures { OnOk result (text.new ≡ text.old ++ texts.things_text map.now) }
{
    for place in 0..map.entities().len() {
        text.push_line(&line_at(map, place))?;
    }
    Ok(())
}

/// Puts the line of the arena last.
fn push_arena(text: &mut PlanText, map: &ArenaMap) -> Result<(), AllocError>
    ensures { OnOk result (text.new ≡ text.old ++ texts.arena_text map.now) }
{
    let bounds = map.bounds();
    text.push_line(&MapLine::Arena {
        lo: bounds.lo(),
        hi: bounds.hi(),
    })
}

/// Puts the line of the depth last, where it isn't the one that a map has anyway.
fn push_depth(text: &mut PlanText, map: &ArenaMap) -> Result<(), AllocError>
    ensures { OnOk result (text.new ≡ text.old ++ texts.depth_text map.now) }
{
    let depth = map.depth();
    if depth == DEFAULT_DEPTH {
        return Ok(());
    }
    text.push_line(&MapLine::Depth(depth))
}

/// Puts the line that lets players shoot last, where they can.
fn push_shots(text: &mut PlanText, map: &ArenaMap) -> Result<(), AllocError>
    ensures { OnOk result (text.new ≡ text.old ++ texts.shots_text map.now) }
{
    if !map.shots() {
        return Ok(());
    }
    text.push_line(&MapLine::Shots)
}

/// Puts the line of how many blocks there may be last, where they aren't as many as without it.
fn push_limit(text: &mut PlanText, map: &ArenaMap) -> Result<(), AllocError>
    ensures { OnOk result (text.new ≡ text.old ++ texts.limit_text map.now) }
{
    let most = map.most_blocks();
    if most == DEFAULT_BLOCKS {
        return Ok(());
    }
    text.push_line(&MapLine::Blocks(most))
}

/// Puts the lines of the settings last: the depth, shots, and how many blocks there may be.
fn push_settings(text: &mut PlanText, map: &ArenaMap) -> Result<(), AllocError>
    ensures { OnOk result (text.new ≡ text.old ++ texts.settings_text map.now) }
{
    push_depth(text, map)?;
    push_shots(text, map)?;
    push_limit(text, map)
}

/// Puts the lines of a map last: the arena, the settings, the blocks, the spawns, and the things by their ids.
pub fn push_map(text: &mut PlanText, map: &ArenaMap) -> Result<(), AllocError>
    ensures { OnOk result (text.new ≡ text.old ++ texts.map_text map.now) }
{
    push_arena(text, map)?;
    push_settings(text, map)?;
    push_blocks(text, map)?;
    push_spawns(text, map)?;
    push_things(text, map)
}

/// The lines of a map, each with its line feed, in the order of [`push_map`].
pub fn spell_map(alloc: Global, map: &ArenaMap) -> Result<PlanText, AllocError>
    ensures { IfOk result (λ text. text ≡ texts.map_text map.now) }
{
    let mut text = PlanText::new(alloc)?;
    push_map(&mut text, map)?;
    Ok(text)
}
