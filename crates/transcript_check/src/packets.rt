use packet_read::{Arrival, MOST_ARRIVALS};
use std::alloc::{AllocError, Global};
use std::marker::Model;

/// The packets of a frame, in the order in which they arrived. It has the room for as many as a frame may have from the
/// start.
#[derive(Drop)]
pub struct Packets {
    arrivals: Vec<Arrival>,
}

// Clauses see the packets.
impl Model for Packets {
    ghost use Rattle.std.specs.Prelude.{List, ◌≤◌, vec_capacity};
    ghost use Rattle.packet_read.specs.declared.arrival.Arrival.{Arrival};
    ghost use Rattle.packet_read.specs.declared.arrival.TheConstants.{MOST_ARRIVALS};

    ghost Value = { List Arrival };

    ghost view = { λ p. p.arrivals.items };

    ghost invariant = { λ p. MOST_ARRIVALS ≤ vec_capacity p.arrivals };
}

impl Packets {
    ghost use Rattle.std.specs.Prelude.{◌≡◌, ◌<◌, ◌↔◌, [], ◌∷◌, ◌++◌, length, IfOk, IsTrue};
    ghost use Rattle.std.specs.Bool.{OnTrue, OnFalse};
    ghost use Rattle.packet_read.specs.declared.arrival.TheConstants.{MOST_ARRIVALS};

    /// No packet. The only error is that memory is refused.
    pub fn new(alloc: Global) -> Result<Packets, AllocError>
        ensures { IfOk result (λ packets. packets ≡ []) }
    {
        Ok(Packets {
            arrivals: Vec::with_capacity(alloc, MOST_ARRIVALS as usize)?,
        })
    }

    /// Has no packet.
    pub fn clear(&mut self)
        ensures { self.new ≡ [] }
    {
        self.arrivals.clear();
    }

    /// Puts a packet last. It is false exactly where there are as many as a frame may have.
    pub fn push(&mut self, packet: Arrival) -> bool
        ensures room { IsTrue result ↔ (length self.old < MOST_ARRIVALS) }
        ensures pushed { OnTrue result (self.new ≡ self.old ++ packet ∷ []) }
        ensures full { OnFalse result (self.new ≡ self.old) }
    {
        if self.arrivals.len() >= MOST_ARRIVALS as usize {
            return false;
        }
        self.arrivals.push_reserved(packet);
        true
    }

    /// The packets, in the order in which they were put in.
    pub fn as_slice(&self) -> &[Arrival]
        ensures { result.now ≡ self.now }
    {
        self.arrivals.as_slice()
    }
}
