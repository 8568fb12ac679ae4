ghost use Rattle.std.specs.Prelude.{◌≡◌, ◌<◌, ◌≤◌, IfOk, IfSome, IsSome, None, length, slice_set};
ghost use Rattle.client_ports.specs.Clients as clients;
ghost use Rattle.client_ports.specs.Clients.{no_clients, client_at, ports_of, live_slot, new_client, with_client};
ghost use Rattle.client_ports.specs.Clients.{AreClients, IsUpdate, IsSlotFor};
ghost use Rattle.client_ports.specs.NewMoves.{new_among};
ghost use Rattle.client_ports.specs.FirstRefusals as answers;
ghost use Rattle.entity_slots.specs.FreeSlots as places;

use crate::client::{Client, LiveSlot};
use crate::refusal::Refusal;
use entity_recs::SLOTS;
use entity_slots::{JoinFault, Slots};
use packet_read::MovePacket;
use std::marker::Model;

/// The most moves of a client that are accepted in a frame.
pub const MOST_MOVES: u8 = 8;

/// The clients of the live slots. No port is joined in two slots, and no client has more than [`MOST_MOVES`] moves in a
/// frame. No call takes memory.
#[derive(Drop)]
pub struct Ports {
    slots: Slots,
    clients: [Option<Client>; SLOTS],
}

// Clauses see the list of the clients by slot.
impl Model for Ports {
    ghost use Rattle.std.specs.Prelude.{List, Option};
    ghost use Rattle.client_ports.specs.declared.client.Client.{Client};
    ghost use Rattle.client_ports.specs.Clients.{ArePorts};

    ghost Value = { List (Option Client) };

    ghost view = { λ p. p.clients };

    ghost invariant = { λ p. ArePorts p.slots p.clients };
}

/// The refusal of a join that gets no slot.
pub(crate) fn refusal_of(fault: JoinFault) -> Refusal
    ensures { result ≡ answers.refusal_of fault }
{
    match fault {
        JoinFault::Already => Refusal::Already,
        JoinFault::Full => Refusal::Full,
    }
}

/// The answer to a leave of this client.
fn leave_by(live: Option<LiveSlot>) -> Result<LiveSlot, Refusal>
    ensures { result ≡ answers.leave_by live }
{
    match live {
        None => Err(Refusal::NotJoined),
        Some(live) if live.client.leaves => Err(Refusal::Leaving),
        Some(LiveSlot { slot, client }) => Ok(LiveSlot {
            slot,
            client: Client {
                leaves: true,
                ..client
            },
        }),
    }
}

/// How many of these commands have a number above this one.
pub(crate) fn new_count(last: u32, steps: &[MovePacket]) -> usize
    ensures { result ≡ length (new_among last steps.now) }
{
    steps.iter().filter(|step| step.seq > last).count()
}

/// The answer to a move packet of this client with these commands: the client, whose new ones may be accepted.
fn move_by(live: Option<LiveSlot>, steps: &[MovePacket]) -> Result<LiveSlot, Refusal>
    requires { IfSome live (λ l. l.client.moves ≤ 8) }
    ensures { result ≡ answers.move_by live steps.now }
{
    let Some(live) = live else {
        return Err(Refusal::NotJoined);
    };
    if live.client.leaves {
        return Err(Refusal::Leaving);
    }
    let new = new_count(live.client.last, steps);
    if new == 0 {
        return Err(Refusal::Old);
    }
    if new > usize::from(MOST_MOVES - live.client.moves) {
        return Err(Refusal::Many);
    }
    Ok(live)
}

impl Ports {
    /// Nobody is joined.
    pub fn new() -> Ports
        ensures { result ≡ no_clients }
    {
        Ports {
            slots: Slots::new(),
            clients: [None; SLOTS],
        }
    }

    /// Makes these clients as the others.
    pub fn copy_from(&mut self, o: &Ports)
        ensures { self.new ≡ o.now }
    {
        self.slots.copy_from(&o.slots);
        self.clients = o.clients;
    }

    /// The client of each slot, by the number of the slot. There are 64.
    pub fn clients(&self) -> &[Option<Client>]
        ensures value { result.now ≡ self.now }
        ensures apart { AreClients self.now }
    {
        &self.clients
    }

    /// The client of this slot, and `None` exactly where the slot isn't live.
    pub fn client_at(&self, slot: u8) -> Option<Client>
        requires { slot < 64 }
        ensures value { result ≡ client_at self.now slot }
        ensures apart { AreClients self.now }
    {
        self.clients[usize::from(slot)]
    }

    /// The least free slot, in which a join of this port goes, or why it gets none.
    pub(crate) fn slot_for(&self, port: u16) -> Result<u8, JoinFault>
        ensures value { result ≡ places.slot_for (ports_of self.now) port }
        ensures place { IfOk result (IsSlotFor self.now port) }
        ensures count { length self.now ≡ 64 }
    {
        self.slots.slot_for(port)
    }

    /// Joins a port in a free slot.
    pub(crate) fn join(&mut self, slot: u8, port: u16)
        requires { IsSlotFor self.old port slot }
        ensures { self.new ≡ with_client self.old (live_slot slot (new_client port)) }
    {
        self.slots.seat(slot, port);
        self.clients[usize::from(slot)] = Some(Client {
            port,
            last: 0,
            leaves: false,
            moves: 0,
        });
    }

    /// The slot in which this port is joined, with its client.
    fn live_with(&self, port: u16) -> Option<LiveSlot>
        ensures value { result ≡ clients.live_with self.now port }
        ensures live { IfSome result (IsUpdate self.now) }
        ensures apart { AreClients self.now }
    {
        let slot = self.slots.slot_of(port)?;
        let client = self.clients[usize::from(slot)]?;
        Some(LiveSlot { slot, client })
    }

    /// The client of this port, leaving, or why its leave is refused.
    pub(crate) fn leave_answer(&self, port: u16) -> Result<LiveSlot, Refusal>
        ensures value { result ≡ answers.leave_answer self.now port }
        ensures live { IfOk result (IsUpdate self.now) }
    {
        leave_by(self.live_with(port))
    }

    /// The client of this port, where the new ones of these commands may be accepted, or why the packet is refused.
    pub(crate) fn move_answer(&self, port: u16, steps: &[MovePacket]) -> Result<LiveSlot, Refusal>
        ensures value { result ≡ answers.move_answer self.now port steps.now }
        ensures live { IfOk result (λ l. IsUpdate self.now (answers.with_new_moves l (new_among l.client.last steps.now))) }
        ensures apart { AreClients self.now }
    {
        move_by(self.live_with(port), steps)
    }

    /// Frees a live slot.
    pub(crate) fn free(&mut self, slot: u8)
        requires in_range { slot < 64 }
        requires live { IsSome (client_at self.old slot) }
        ensures { self.new ≡ slice_set self.old slot None }
    {
        self.slots.vacate(slot);
        self.clients[usize::from(slot)] = None;
    }

    /// Puts another client of the same port in a live slot.
    pub(crate) fn update(&mut self, live: LiveSlot)
        requires { IsUpdate self.old live }
        ensures { self.new ≡ with_client self.old live }
    {
        self.clients[usize::from(live.slot)] = Some(live.client);
    }
}
