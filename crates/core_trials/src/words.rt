use crate::players::NEAR;
use core_machine::{Cell, Seat, Store, Words};
use core_steps::{TABLE_NODES, TABLE_STATES, encode};
use entity_recs::Cmd;
use std::alloc::{AllocError, Global};
use std::test::Fail;

/// A command of 50 ms without a wish.
const PLAIN: Cmd = Cmd {
    slot: 1,
    seq: 1,
    frame: 0,
    ms: 50,
    wish_x: 0,
    wish_y: 0,
    buttons: 0,
};

/// Words that are all 0.
fn zeros() -> Words {
    Words {
        commits: 0,
        node: [0; TABLE_NODES],
        links: [0; TABLE_NODES],
        body: [[0; 5]; 64],
        state: [0; TABLE_STATES],
    }
}

#[test]
fn a_stored_link_is_a_bit_until_it_is_cleared(rt: HostRuntime) {
    let mut words = zeros();
    words.make_store(Store::Link(15), 1);
    assert_eq!(rt; words.links[15], 2);
    words.make_store(Store::Clear(15), 1);
    assert_eq!(rt; words.links[15], 0);
}

/// Words that have the first word of the record of [`NEAR`].
fn words_of_near() -> Words {
    let mut words = zeros();
    let body = encode(&NEAR);
    words.set_cell(Cell::Body(1, 0), body[0]);
    words
}

/// A seat that has begun its command, and loaded the first word of its own record.
fn begun_seat(alloc: Global) -> Result<Seat, AllocError> {
    let mut seat = Seat::new(alloc, 1, 1, 1)?;
    seat.begin(PLAIN, words_of_near().of_player(1, 0));
    Ok(seat)
}

#[test]
fn first_word_of_the_own_record_is_loaded(rt: HostRuntime) -> Result<(), Fail> {
    let seat = begun_seat(rt.alloc())?;
    assert_eq!(rt; seat.own.as_slice(), [422_212_465_151_488].as_slice());
    assert_eq!(rt; seat.cmd, Some(PLAIN));
    Ok(())
}

#[test]
fn a_seat_counts_refusals_and_forgets_its_command(rt: HostRuntime) -> Result<(), Fail> {
    let mut seat = begun_seat(rt.alloc())?;
    seat.refuse(15, 257);
    assert_eq!(rt; seat.refusals.count, 1);
    seat.forget();
    assert_eq!(rt; seat.cmd, None);
    Ok(())
}

/// Words with a number in each part of the table.
fn numbered_words() -> Words {
    let mut words = zeros();
    words.set(0, 7);
    words.set(4, 5);
    words.set(79, 2);
    words.set(141, 9);
    words.set(647, 11);
    words
}

#[test]
fn words_lie_in_the_order_of_the_table(rt: HostRuntime) {
    let words = numbered_words();
    assert_eq!(rt; words.commits, 7);
    assert_eq!(rt; words.node[3], 5);
    assert_eq!(rt; words.links[15], 2);
    assert_eq!(rt; words.body[2][4], 9);
    assert_eq!(rt; words.state[200], 11);
}

#[test]
fn words_are_read_where_they_were_set(rt: HostRuntime) {
    let words = numbered_words();
    assert_eq!(rt; words.get(0), 7);
    assert_eq!(rt; words.get(141), 9);
    assert_eq!(rt; words.get(142), 0);
    assert_eq!(rt; words.get(647), 11);
}
