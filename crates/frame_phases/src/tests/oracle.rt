ghost use Rattle.move_phase.specs.Serving.{AreWorkers};

use super::for_helpers::ForHelpers;
use super::{JOIN, arrival};
use crate::{FrameOut, Server, run_frame};
use arena_actions::MapAction;
use arena_map::MOST_FRAMES;
use entity_recs::Entry;
use move_phase::Runners;
use packet_read::{Arrival, MOST_ARRIVALS};
use std::alloc::{AllocError, AllocGlobal, Global};
use std::process::Abort;
use std::sync::Wait;
use std::test::Fail;
use std::thread::Threads;

/// The port of the player that gets slot 0. That of the next slot is the next number.
const FIRST_PORT: u16 = 7;

/// A move of 50 milliseconds.
#[derive(Clone, Copy)]
pub struct Move {
    pub slot: u8,
    pub seq: u8,
    pub wish_x: i16,
    pub wish_y: i16,
}

impl Move {
    /// The packet that its player sends.
    fn to_arrival(self) -> Arrival {
        let [x_low, x_high] = self.wish_x.to_le_bytes();
        let [y_low, y_high] = self.wish_y.to_le_bytes();
        let bytes = [1, 2, self.seq, 0, 0, 0, 50, x_low, x_high, y_low, y_high, 0];
        arrival(FIRST_PORT + u16::from(self.slot), &bytes)
    }

    /// Whether the entry is this move's.
    fn is_of(self, entry: &Entry) -> bool {
        self.slot == entry.slot && u32::from(self.seq) == entry.seq
    }
}

/// The joins of so many players, and then these moves.
pub fn arrivals_of(alloc: Global, joins: u8, moves: &[Move]) -> Result<Vec<Arrival>, AllocError> {
    let mut arrivals = Vec::new(alloc);
    for slot in 0..joins {
        arrivals.push(arrival(FIRST_PORT + u16::from(slot), &JOIN))?;
    }
    for step in moves {
        arrivals.push(step.to_arrival())?;
    }
    Ok(arrivals)
}

/// The moves in the order of the frame's journal.
fn in_order_of(alloc: Global, out: &FrameOut, moves: &[Move]) -> Result<Vec<Move>, Fail> {
    let mut ordered = Vec::new(alloc);
    for entry in out.journal.as_slice() {
        let step = moves.iter().find(|step| step.is_of(entry));
        ordered.push(*step.ok_or("the entry's move")?)?;
    }
    Ok(ordered)
}

/// Runs one frame more on so many workers.
pub fn play_on<'a>(
    rt: &(impl AllocGlobal + Abort + Threads + Wait + Sync),
    server: &mut Server<'a>,
    arrivals: &[Arrival],
    workers: u8,
    runners: &mut Runners<'a, ForHelpers>,
    out: &mut FrameOut,
) -> Result<(), AllocError>
    requires { AreWorkers workers }
{
    assert!(rt; server.frames() < MOST_FRAMES);
    assert!(rt; arrivals.len() <= MOST_ARRIVALS as usize);
    run_frame(rt, rt.alloc(), server, arrivals, workers, runners, out)
}

/// Compares two entries.
fn expect_same_entry(rt: &impl Abort, entry: &Entry, other: &Entry) {
    assert_eq!(rt; entry.place, other.place);
    assert_eq!(rt; (entry.slot, entry.seq), (other.slot, other.seq));
    assert_eq!(rt; entry.reply.origin, other.reply.origin);
    assert_eq!(rt; entry.reply.got.as_slice(), other.reply.got.as_slice());
}

/// Compares the journals of two frames.
fn expect_same_entries(rt: &impl Abort, out: &FrameOut, other: &FrameOut) {
    let (entries, others) = (out.journal.as_slice(), other.journal.as_slice());
    assert_eq!(rt; entries.len(), others.len());
    for (entry, other) in entries.iter().zip(others) {
        expect_same_entry(rt, entry, other);
    }
}

/// Compares the numbers of two frames, the players that have joined, and the slots that are shown.
fn expect_same_players(rt: &impl Abort, out: &FrameOut, other: &FrameOut) {
    assert_eq!(rt; out.frame, other.frame);
    assert_eq!(rt; out.received.joined(), other.received.joined());
    assert_eq!(rt; out.slots.as_slice(), other.slots.as_slice());
}

/// Compares the snapshots of two frames.
fn expect_same_replies(rt: &impl Abort, out: &FrameOut, other: &FrameOut) {
    let (replies, others) = (out.replies.as_slice(), other.replies.as_slice());
    assert_eq!(rt; replies.len(), others.len());
    for (reply, other) in replies.iter().zip(others) {
        assert_eq!(rt; reply.as_slice(), other.as_slice());
    }
}

/// A server, and what its last frame gave out.
#[derive(Drop)]
pub struct Played<'a> {
    server: Server<'a>,
    out: FrameOut,
}

impl<'a> Played<'a> {
    ghost use Rattle.arena_actions.specs.MapActions.{IsOfItsMap};

    /// A server of this action's map, which has played no frame.
    fn new(alloc: Global, action: &'a MapAction) -> Result<Played<'a>, AllocError>
        requires { IsOfItsMap action.now }
    {
        let server = Server::new(alloc, action)?;
        let out = FrameOut::new(alloc)?;
        Ok(Played { server, out })
    }
}

/// A server, and one of the same map that plays again what the first has played.
#[derive(Drop)]
pub struct Twins<'a> {
    first: Played<'a>,
    again: Played<'a>,
}

impl<'a> Twins<'a> {
    ghost use Rattle.arena_actions.specs.MapActions.{IsOfItsMap};
    ghost use Rattle.move_phase.specs.Serving.{AreWorkers};

    /// Two servers of this action's map.
    pub fn new(alloc: Global, action: &'a MapAction) -> Result<Twins<'a>, AllocError>
        requires { IsOfItsMap action.now }
    {
        let first = Played::new(alloc, action)?;
        let again = Played::new(alloc, action)?;
        Ok(Twins { first, again })
    }

    /// Runs a frame of so many joins and these moves on so many workers: each move has an entry. On the other server one
    /// worker runs the frame whose moves arrive in the order of the journal: what both give out is the same.
    pub fn play(
        &mut self,
        rt: &(impl AllocGlobal + Abort + Threads + Wait + Sync),
        runners: &mut Runners<'a, ForHelpers>,
        joins: u8,
        moves: &[Move],
        workers: u8,
    ) -> Result<(), Fail>
        requires { AreWorkers workers }
    {
        let arrivals = arrivals_of(rt.alloc(), joins, moves)?;
        let first = &mut self.first;
        play_on(
            rt,
            &mut first.server,
            arrivals.as_slice(),
            workers,
            runners,
            &mut first.out,
        )?;
        self.play_again(rt, runners, joins, moves)
    }

    /// Runs the frame on the other server, with these moves in the order of the journal, and compares the two.
    fn play_again(
        &mut self,
        rt: &(impl AllocGlobal + Abort + Threads + Wait + Sync),
        runners: &mut Runners<'a, ForHelpers>,
        joins: u8,
        moves: &[Move],
    ) -> Result<(), Fail> {
        let ordered = in_order_of(rt.alloc(), &self.first.out, moves)?;
        assert_eq!(rt; ordered.len(), moves.len());
        let arrivals = arrivals_of(rt.alloc(), joins, ordered.as_slice())?;
        let again = &mut self.again;
        play_on(
            rt,
            &mut again.server,
            arrivals.as_slice(),
            1,
            runners,
            &mut again.out,
        )?;
        self.expect_same(rt);
        Ok(())
    }

    /// Compares what the two frames give out.
    fn expect_same(&self, rt: &impl Abort) {
        let (out, other) = (&self.first.out, &self.again.out);
        expect_same_entries(rt, out, other);
        expect_same_players(rt, out, other);
        expect_same_replies(rt, out, other);
    }
}
