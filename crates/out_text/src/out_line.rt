ghost use Rattle.std.specs.Prelude.{◌≡◌};
ghost use Rattle.out_text.specs.OutLines as lines;
ghost use Rattle.out_text.specs.FrameLines.{no_line, joined_line, did_line};
ghost use Rattle.out_text.specs.Feeds.{from_line};
ghost use Rattle.out_text.specs.Printing.{line_of};
ghost use Rattle.out_text.specs.Ranges.{HasRoom};

use arena_geo::Vec3;
use client_ports::{Joined, Refusal, Refused};
use entity_recs::{Entry, IdList};
use packet_read::Arrival;

// A line owns the ids got, since a reader of lines has no entry to borrow them from.
/// One line of the output.
#[derive(Drop)]
pub enum OutLine<'a> {
    /// A frame begins, which has this number.
    Frame(u32),
    /// A packet arrived, where the order of arrival is printed.
    From {
        /// The port that sent it.
        port: u16,
        /// Its bytes.
        bytes: &'a [u8],
    },
    /// A packet was refused.
    No {
        /// The place of the packet among those of its frame, from 0 on.
        place: u32,
        /// Why it was refused.
        why: Refusal,
    },
    /// A player joined.
    Joined {
        /// The port that it joined from.
        port: u16,
        /// The slot that it got.
        slot: u8,
    },
    /// A move was done.
    Did {
        /// Whose move it was: a slot from 0 to 63.
        slot: u8,
        /// The player's own number of the move.
        seq: u32,
        /// Where the player is after it, in sub-units.
        origin: Vec3,
        /// The ids that it got. They are printed in this order.
        got: IdList,
    },
    /// What a player sees.
    To {
        /// The player's slot.
        slot: u8,
        /// The bytes of its snapshot.
        bytes: &'a [u8],
    },
    /// The output ends, after so many frames.
    End(u32),
}

/// What is printed as one line.
pub trait Printed {
    // The line.
    ghost line: { Self → lines.OutLine };

    /// The line.
    fn line(&self) -> OutLine<'_>
        ensures is { line_of result ≡ line self.now }
        ensures room { HasRoom (line_of result) };
}

impl Printed for Arrival {
    ghost line = { from_line };

    fn line(&self) -> OutLine<'_> {
        OutLine::From {
            port: self.port,
            bytes: self.bytes.as_slice(),
        }
    }
}

impl Printed for Refused {
    ghost line = { no_line };

    fn line(&self) -> OutLine<'_> {
        OutLine::No {
            place: self.place,
            why: self.why,
        }
    }
}

impl Printed for Joined {
    ghost line = { joined_line };

    fn line(&self) -> OutLine<'_> {
        OutLine::Joined {
            port: self.port,
            slot: self.slot,
        }
    }
}

/// The same ids in a list of their own.
fn copy_of(ids: &IdList) -> IdList
    ensures { result ≡ ids.now }
{
    let mut copy = IdList::new();
    for id in ids.as_slice() {
        // The copy has as much room as the list itself.
        let _fits = copy.push(*id);
    }
    copy
}

impl Printed for Entry {
    ghost line = { did_line };

    fn line(&self) -> OutLine<'_> {
        OutLine::Did {
            slot: self.slot,
            seq: self.seq,
            origin: self.reply.origin,
            got: copy_of(&self.reply.got),
        }
    }
}
