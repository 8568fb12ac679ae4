ghost use Rattle.std.specs.Prelude.{◌≡◌, ◌↔◌, ◌<◌, Some, None, Err, IsSome, IfOk, IfSome, true, false};
ghost use Rattle.entity_slots.specs.declared.join_fault.JoinFault.TheVariants.{Already, Full};
ghost use Rattle.entity_slots.specs.Ports as slots;
ghost use Rattle.entity_slots.specs.Ports.{no_ports, port_at, is_joined, is_full, with_port, without_slot};
ghost use Rattle.entity_slots.specs.FreeSlots as places;
ghost use Rattle.entity_slots.specs.FreeSlots.{IsLeastFree};

use crate::join_fault::JoinFault;
use entity_recs::SLOTS;
use std::marker::Model;

// `port_at` is one call more than the slots need: it is how a caller learns which slots are live.
/// The slots of the players, each free or live with the port that is joined there. No port is joined in two slots.
///
/// A slot is found by its number. No call takes memory.
#[derive(Clone, Copy, Debug, PartialEq, Eq)]
pub struct Slots {
    ports: [Option<u16>; SLOTS],
}

// Clauses see the list of the ports by slot.
impl Model for Slots {
    ghost use Rattle.std.specs.Prelude.{ℕ, List, Option};
    ghost use Rattle.entity_slots.specs.Ports.{AreSlots};

    ghost Value = { List (Option ℕ) };

    ghost view = { λ s. s.ports };

    ghost invariant = { λ s. AreSlots s.ports };

    ghost inverse = { λ ports. record { ports = ports } };
}

/// Whether a slot is live with this port.
fn has_port(place: Option<u16>, port: u16) -> bool
    ensures { result ≡ slots.has_port port place }
{
    match place {
        Some(joined) => joined == port,
        None => false,
    }
}

/// The first slot that is live with this port.
fn slot_with(ports: &[Option<u16>], port: u16) -> Option<usize>
    ensures { result ≡ slots.slot_of ports.now port }
{
    ports.iter().position(|place| has_port(*place, port))
}

/// The least free slot.
fn free_slot(ports: &[Option<u16>]) -> Option<usize>
    ensures { result ≡ places.free_slot ports.now }
{
    ports.iter().position(|place| place.is_none())
}

/// The number of a slot.
fn number_of(place: Option<usize>) -> Option<u8>
    requires { IfSome place (λ slot. slot < 64) }
    ensures { result ≡ place }
{
    match place {
        Some(slot) => Some(slot as u8),
        None => None,
    }
}

impl Slots {
    /// Slots of which none is live.
    pub fn new() -> Slots
        ensures { result ≡ no_ports }
    {
        Slots {
            ports: [None; SLOTS],
        }
    }

    /// Makes these slots as the others.
    pub fn copy_from(&mut self, o: &Slots)
        ensures { self.new ≡ o.now }
    {
        self.ports = o.ports;
    }

    /// The least free slot, in which a join of this port goes. `Already` exactly where the port is joined; else `Full`
    /// exactly where all slots are live.
    pub fn slot_for(&self, port: u16) -> Result<u8, JoinFault>
        ensures value { result ≡ places.slot_for self.now port }
        ensures already { (result ≡ Err Already) ↔ (is_joined self.now port ≡ true) }
        ensures full { (result ≡ Err Full) ↔ ((is_joined self.now port ≡ false) × (is_full self.now ≡ true)) }
        ensures least { IfOk result (IsLeastFree self.now) }
    {
        if self.slot_of(port).is_some() {
            return Err(JoinFault::Already);
        }
        number_of(free_slot(&self.ports)).ok_or(JoinFault::Full)
    }

    /// Puts a port that isn't joined into a free slot.
    pub fn seat(&mut self, slot: u8, port: u16)
        requires in_range { slot < 64 }
        requires free { port_at self.old slot ≡ None }
        requires not_joined { is_joined self.old port ≡ false }
        ensures { self.new ≡ with_port self.old slot port }
    {
        self.ports[usize::from(slot)] = Some(port);
    }

    /// Frees a live slot.
    pub fn vacate(&mut self, slot: u8)
        requires { IsSome (port_at self.old slot) }
        ensures { self.new ≡ without_slot self.old slot }
    {
        self.ports[usize::from(slot)] = None;
    }

    /// The slot in which this port is joined, and `None` exactly where it isn't joined.
    pub fn slot_of(&self, port: u16) -> Option<u8>
        ensures value { result ≡ slots.slot_of self.now port }
        ensures joined { IsSome result ↔ (is_joined self.now port ≡ true) }
        ensures own { IfSome result (λ slot. port_at self.now slot ≡ Some port) }
        ensures in_range { IfSome result (λ slot. slot < 64) }
    {
        number_of(slot_with(&self.ports, port))
    }

    /// The port that is joined in this slot, and `None` exactly where the slot isn't live.
    pub fn port_at(&self, slot: u8) -> Option<u16>
        requires { slot < 64 }
        ensures { result ≡ port_at self.now slot }
    {
        self.ports[usize::from(slot)]
    }
}

#[cfg(test)]
mod tests;
