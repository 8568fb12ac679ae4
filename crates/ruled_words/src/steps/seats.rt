ghost use Rattle.std.specs.Prelude.{◌≡◌, ◌<◌, [], length};
ghost use Rattle.core_steps.specs.declared.sizes.TheConstants.{TABLE_WORDS};
ghost use Rattle.ruled_words.specs.Starts.{fixed_by};
ghost use Rattle.ruled_words.specs.Sights.{with_one_made, sight_made, with_one_ended};
ghost use Rattle.ruled_words.specs.Going.{IsAtRest};
ghost use Rattle.ruled_words.specs.Plays.{SeatLooked};

use crate::rule::key::{TableSeat, Words};
use crate::rule::plays::{Ends, Looks, Makes, Planned, Roomed};
use entity_recs::Action;
use std::marker::Brand;

/// The seat looks at the count of commits, by a pick.
fn look_as<A: Action, N: Planned>(words: &Words<A>, seat: &mut TableSeat) -> u64
    requires table { (seat.old.table_id ≡ words.now.table_id) × (words.now.table_id.words ≡ TABLE_WORDS) }
    requires fixed { N.fixed ≡ (fixed_by A.meaning words.now.key.action.value
        words.now.key.world.value) }
    requires passes { N.passes ≡ length words.now.key.rooms.items }
    requires rests { IsAtRest seat.old.me.0.view }
    ensures table { seat.new.table_id ≡ seat.old.table_id }
    ensures looked { SeatLooked N.fixed N.passes seat.old.me result seat.new.me }
{
    words.load::<Looks<N>>(seat, 0)
}

/// A seat that rests looks at the count of commits.
pub(crate) fn look<A: Action>(words: &Words<A>, seat: &mut TableSeat) -> u64
    requires table { (seat.old.table_id ≡ words.now.table_id) × (words.now.table_id.words ≡ TABLE_WORDS) }
    requires rests { IsAtRest seat.old.me.0.view }
    ensures table { seat.new.table_id ≡ seat.old.table_id }
    ensures looked { SeatLooked (fixed_by A.meaning words.now.key.action.value
        words.now.key.world.value) (length words.now.key.rooms.items) seat.old.me result seat.new.me }
{
    look_as::<A, Brand>(words, seat)
}

/// A seat is made from seat 0, by a pick.
fn make_as<A: Action, N: Roomed>(words: &Words<A>, seat: &mut TableSeat, room: u32) -> TableSeat
    requires table { (seat.old.table_id ≡ words.now.table_id) × (words.now.table_id.words ≡ TABLE_WORDS) }
    requires room { N.room ≡ room }
    requires rests { IsAtRest seat.old.me.0.view }
    requires first { seat.old.me.0.number ≡ 0 }
    requires more { seat.old.me.0.view.made < length words.now.key.rooms.items }
    ensures table { (seat.new.table_id ≡ seat.old.table_id) × (result.table_id ≡ seat.old.table_id) }
    ensures seat { seat.new.me ≡ (with_one_made seat.old.me.0, seat.old.me.1) }
    ensures made { result.me ≡ (sight_made N.room seat.old.me.0, []) }
{
    // The play gives the new seat this room; here it is read by the clauses alone.
    let _ = room;
    words.split_seat::<Makes<N>>(seat)
}

/// A seat with this room is made from seat 0, which rests.
pub(crate) fn make<A: Action>(words: &Words<A>, seat: &mut TableSeat, room: u32) -> TableSeat
    requires table { (seat.old.table_id ≡ words.now.table_id) × (words.now.table_id.words ≡ TABLE_WORDS) }
    requires rests { IsAtRest seat.old.me.0.view }
    requires first { seat.old.me.0.number ≡ 0 }
    requires more { seat.old.me.0.view.made < length words.now.key.rooms.items }
    ensures table { (seat.new.table_id ≡ seat.old.table_id) × (result.table_id ≡ seat.old.table_id) }
    ensures seat { seat.new.me ≡ (with_one_made seat.old.me.0, seat.old.me.1) }
    ensures made { result.me ≡ (sight_made room seat.old.me.0, []) }
{
    make_as::<A, Brand>(words, seat, room)
}

/// Another seat that rests is ended into seat 0.
pub(crate) fn end<A: Action>(words: &Words<A>, seat: &mut TableSeat, other: TableSeat)
    requires table { (seat.old.table_id ≡ words.now.table_id) × (other.table_id ≡ words.now.table_id)
        × (words.now.table_id.words ≡ TABLE_WORDS) }
    requires rests { IsAtRest seat.old.me.0.view × IsAtRest other.me.0.view }
    requires first { seat.old.me.0.number ≡ 0 }
    requires carries { other.me.1 ≡ [] }
    ensures table { seat.new.table_id ≡ seat.old.table_id }
    ensures seat { seat.new.me ≡ (with_one_ended seat.old.me.0 other.me.0, seat.old.me.1) }
{
    words.join_seat::<Ends>(seat, other);
}
