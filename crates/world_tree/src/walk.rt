ghost use Rattle.std.specs.Prelude.{◌≡◌, ◌+◌, ◌<◌, ◌≤◌, false, [], filter, length, replicate, slice_index_or, slice_set, sum_by, None};
ghost use Rattle.std.specs.List.{list_any, range_with_len};
ghost use Rattle.areanode.specs.declared.sizes.TheConstants.{MOST_NODES};
ghost use Rattle.areanode.specs.Words.{has_bit};
ghost use Rattle.entity_recs.specs.declared.rec.Rec.{Rec};
ghost use Rattle.entity_recs.specs.Records.{IsRecord};
ghost use Rattle.link_lists.specs.Pool.{list_of};
ghost use Rattle.world_tree.specs.Live as live;
ghost use Rattle.world_tree.specs.Live.{AreEntries};
ghost use Rattle.world_tree.specs.Walks as walks;

use crate::near_list::NearList;
use crate::steps::Steps;
use arena_geo::{Aabb, Region};
use entity_recs::{IDS, Rec, body_box};
use link_lists::Lists;
use std::sync::ledger::Ledger;

/// Whether the node is among those of the word, bit i for node i.
fn is_among(nodes: u64, node: u8) -> bool
    requires { node < MOST_NODES }
    ensures { result ≡ has_bit nodes node }
{
    nodes >> node & 1 == 1
}

/// The record with this id, if that id is live.
pub fn record_at(records: &[Option<Rec>], id: u16) -> Option<Rec>
    ensures { result ≡ live.record_at records.now id }
{
    records.get(usize::from(id)).copied().flatten()
}

/// The box at this id, if there is one.
pub fn box_at(boxes: &[Option<Aabb>], id: u16) -> Option<Aabb>
    ensures { result ≡ slice_index_or boxes.now id None }
{
    boxes.get(usize::from(id)).copied().flatten()
}

/// Whether there is a box at the id and it touches the region.
fn is_touched(boxes: &[Option<Aabb>], region: &Region, id: u16) -> bool
    ensures { result ≡ walks.touches_at boxes.now region.now id }
{
    match box_at(boxes, id) {
        Some(abs) => region.is_touched_by(&abs),
        None => false,
    }
}

/// Marks the ids of a list whose boxes touch the region.
fn mark_list(
    lists: &Lists,
    list: u8,
    boxes: &[Option<Aabb>],
    region: &Region,
    marks: &mut [bool; IDS],
)
    requires ids { lists.now.ids ≡ IDS }
    ensures { marks.new ≡ walks.marked boxes.now region.now (list_of lists.now list) marks.old }
{
    let mut at = lists.first(list);
    while let Some(id) = at {
        let place = usize::from(id);
        marks[place] = is_touched(boxes, region, id);
        at = lists.next(id);
    }
}

/// Marks the ids of a list whose boxes touch the region, and counts a look at each link that it follows.
fn mark_counted<L: Ledger>(
    lists: &Lists,
    list: u8,
    boxes: &[Option<Aabb>],
    region: &Region,
    marks: &mut [bool; IDS],
    steps: &mut Steps<L>,
)
    requires ids { lists.now.ids ≡ IDS }
    ensures marks { marks.new ≡ walks.marked boxes.now region.now (list_of lists.now list) marks.old }
    ensures looks { steps.new ≡ steps.old + length (list_of lists.now list) }
{
    let mut at = lists.first(list);
    while let Some(id) = at {
        steps.tick();
        let place = usize::from(id);
        marks[place] = is_touched(boxes, region, id);
        at = lists.next(id);
    }
}

/// The marks of the live ids that are linked at these nodes of a tree with `count` nodes and touch the region, bit i of
/// the word for node i.
pub fn touched_at(
    lists: &Lists,
    boxes: &[Option<Aabb>],
    region: &Region,
    nodes: u64,
    count: u8,
) -> [bool; IDS]
    requires ids { lists.now.ids ≡ IDS }
    requires count { count ≤ MOST_NODES }
    ensures { result ≡ walks.marked boxes.now region.now
        (walks.ids_at count lists.now (filter (has_bit nodes) (range_with_len 0 count))) (replicate IDS false) }
{
    let mut marks = [false; IDS];
    for node in 0..count {
        if is_among(nodes, node) {
            mark_list(lists, node, boxes, region, &mut marks);
            mark_list(lists, count + node, boxes, region, &mut marks);
        }
    }
    marks
}

/// The marks of the triggers that are linked at these nodes of a tree with `count` nodes and touch the region. Counts a
/// look at each node that it enters and at each link that it follows.
pub fn touched_triggers<L: Ledger>(
    lists: &Lists,
    boxes: &[Option<Aabb>],
    region: &Region,
    nodes: u64,
    count: u8,
    steps: &mut Steps<L>,
) -> [bool; IDS]
    requires ids { lists.now.ids ≡ IDS }
    requires count { count ≤ MOST_NODES }
    ensures marks { result ≡ walks.marked boxes.now region.now
        (walks.triggers_at count lists.now (filter (has_bit nodes) (range_with_len 0 count))) (replicate IDS false) }
    ensures looks { steps.new ≡ steps.old + (length (filter (has_bit nodes) (range_with_len 0 count))
        + sum_by (λ node. length (list_of lists.now (count + node))) (filter (has_bit nodes) (range_with_len 0 count))) }
{
    let mut marks = [false; IDS];
    for node in 0..count {
        if is_among(nodes, node) {
            steps.tick();
            mark_counted(lists, count + node, boxes, region, &mut marks, steps);
        }
    }
    marks
}

/// Takes the mark of one id away, if it has one.
pub fn unmark(marks: &mut [bool; IDS], id: u16)
    requires { length marks.old ≡ IDS }
    ensures { marks.new ≡ slice_set marks.old id false }
{
    let place = usize::from(id);
    if place < IDS {
        marks[place] = false;
    }
}

/// The record of a place, if the place is marked and there is one. The record of a place without a mark isn't read.
fn marked_record(place: &Option<Rec>, mark: bool) -> Option<Rec>
    ensures { result ≡ walks.marked_record place.now mark }
{
    if mark { *place } else { None }
}

/// Puts the live records at the marked places into the list, in rising id. The list has room for all records.
pub fn gather(records: &[Option<Rec>], marks: &[bool; IDS], out: &mut NearList)
    requires places { length records.now ≡ length marks.now }
    requires few { length marks.now ≡ IDS }
    requires empty { out.old.items ≡ [] }
    requires room { IDS ≤ out.old.room }
    ensures { out.new ≡ record out.old { items = walks.picked marks.now records.now } }
{
    for (id, place) in records.iter().enumerate() {
        if let Some(r) = marked_record(place, marks[id]) {
            let _ = out.push(r);
        }
    }
}

/// Whether there is a record that is a solid other than `except` and whose body overlaps `body`.
fn is_in_the_way(place: &Option<Rec>, body: &Aabb, except: u16) -> bool
    requires { (r : Rec) → place.now ≡ Some r → IsRecord r }
    ensures { result ≡ walks.is_in_the_way body.now except place.now }
{
    match place {
        Some(r) => r.kind.is_solid() && r.id != except && body.overlaps(&body_box(r)),
        None => false,
    }
}

/// Whether the body of a live solid other than `except` overlaps `body`.
pub fn is_blocked_by_solids(records: &[Option<Rec>], body: &Aabb, except: u16) -> bool
    requires { AreEntries records.now }
    ensures { result ≡ list_any (walks.is_in_the_way body.now except) records.now }
{
    for place in records {
        if is_in_the_way(place, body, except) {
            return true;
        }
    }
    false
}
