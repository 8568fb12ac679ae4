ghost use Rattle.std.specs.Prelude.{◌≡◌, ◌+◌, ◌<◌, ◌≤◌, List, [], Option, length, map, All, IfOk};
ghost use Rattle.packet_read.specs.declared.packet.Packet.TheVariants.{Moves};
ghost use Rattle.packet_read.specs.Spelling.{IsAllowedMoves, MovesFit};
ghost use Rattle.packet_read.specs.Commands.{commands_of};
ghost use Rattle.entity_recs.specs.declared.rec.Rec.{Rec};
ghost use Rattle.arena_map.specs.Maps.{IsSpawn};
ghost use Rattle.entity_recs.specs.Commands.{command_of};
ghost use Rattle.arena_map.specs.Validity.{IsValidWorld};
ghost use Rattle.world_tree.specs.Worlds.{with_records};
ghost use Rattle.client_ports.specs.States as states;
ghost use Rattle.client_ports.specs.States.{state_of, HaveSameLive, IsState};
ghost use Rattle.client_ports.specs.Lists.{no_lists, with_moves, received_view, HasRoom, IsRoomFor};
ghost use Rattle.client_ports.specs.NewMoves.{new_among, TakesItsTime};
ghost use Rattle.client_ports.specs.FirstRefusals as answers;
ghost use Rattle.client_ports.specs.Clients.{AreClients, IsSlotFor};
ghost use Rattle.client_ports.specs.Linking.{IsWorldAfter, players_of};
ghost use Rattle.client_ports.specs.Receiving as receiving;
ghost use Rattle.client_ports.specs.Receiving.{receiving_of};

use crate::client::{Client, LiveSlot};
use crate::ports::{Ports, new_count, refusal_of};
use crate::received::Received;
use crate::refusal::Refusal;
use crate::spawns::{JoinPoint, free_spawn};
use arena_geo::Vec3;
use arena_map::ArenaMap;
use arrayvec::ArrayVec;
use entity_recs::{Cmd, Kind, PLAYER_MAXS, PLAYER_MINS, Rec};
use packet_read::{Arrival, MOST_BLOCKS, MovePacket, MovesPacket, Packet, read_packet};
use world_tree::World;

/// A player that has just joined.
fn newcomer(slot: u8, at: Vec3) -> Rec
    ensures { result ≡ states.newcomer slot at }
{
    Rec {
        id: u16::from(slot),
        kind: Kind::Player,
        origin: at,
        mins: PLAYER_MINS,
        maxs: PLAYER_MAXS,
        vel: Vec3::ZERO,
        flags: 0,
        ammo: 0,
        carry: 0,
        score: 0,
        seq: 0,
        state: 0,
    }
}

/// The command of a move in this frame.
fn command(frame: u32, slot: u8, step: &MovePacket) -> Cmd
    requires slot { slot < 64 }
    requires least { 1 ≤ step.now.ms }
    requires most { step.now.ms ≤ 50 }
    ensures { command_of result ≡ receiving.command_in frame slot step.now }
{
    Cmd {
        slot,
        seq: step.seq,
        frame,
        ms: step.ms,
        wish_x: step.wish_x,
        wish_y: step.wish_y,
        buttons: step.buttons,
    }
}

/// The commands of a packet of version 2 as moves with their numbers, the oldest first.
fn moves_of_packet(packet: &MovesPacket) -> ArrayVec<MovePacket, MOST_BLOCKS>
    requires allowed { IsAllowedMoves packet.now }
    requires fits { MovesFit packet.now }
    ensures { result.items ≡ commands_of (Moves packet.now) }
{
    let first = packet.first_seq();
    let mut steps = ArrayVec::new();
    for block in packet.cmds.as_slice() {
        steps.push(block.move_with_number(first + steps.len() as u32));
    }
    steps
}

/// The client after its new ones of these commands.
fn with_new_moves(live: LiveSlot, steps: &[MovePacket]) -> LiveSlot
    requires { live.client.moves + length (new_among live.client.last steps.now) ≤ 8 }
    ensures { result ≡ answers.with_new_moves live (new_among live.client.last steps.now) }
{
    let LiveSlot { slot, client } = live;
    let moves = client.moves + new_count(client.last, steps) as u8;
    let mut last = client.last;
    for step in steps {
        if step.seq > client.last {
            last = step.seq;
        }
    }
    LiveSlot {
        slot,
        client: Client {
            last,
            moves,
            ..client
        },
    }
}

/// Accepts the new ones of these commands, in their order.
fn accept_new(frame: u32, live: LiveSlot, steps: &[MovePacket], out: &mut Received)
    requires slot { live.slot < 64 }
    requires steps { All TakesItsTime steps.now }
    requires room { length out.old.lists.moves + length (new_among live.client.last steps.now) ≤ out.old.room.moves }
    ensures { out.new ≡ received_view (with_moves out.old.lists (map (receiving.command_in frame live.slot)
        (new_among live.client.last steps.now))) out.old.room }
{
    for step in steps {
        if step.seq > live.client.last {
            out.accept(command(frame, live.slot, step));
        }
    }
}

impl Ports {
    /// Where a join of this port goes, or why it is refused.
    fn join_answer(&self, map: &ArenaMap, world: &World, port: u16) -> Result<JoinPoint, Refusal>
        ensures value { result ≡ answers.join_answer map.now (state_of self.now world.now.records) port }
        ensures place { IfOk result (λ to. IsSlotFor self.now port to.slot) }
        ensures spawn { IfOk result (λ to. IsSpawn map.now.bounds to.at) }
        ensures count { length self.now ≡ 64 }
    {
        let slot = self.slot_for(port).map_err(refusal_of)?;
        match free_spawn(map, world, slot) {
            Some(at) => Ok(JoinPoint { slot, at }),
            None => Err(Refusal::Crowded),
        }
    }

    /// What a join changes, at this place of the frame.
    fn receive_join(
        &mut self,
        map: &ArenaMap,
        world: &mut World,
        place: usize,
        port: u16,
        out: &mut Received,
    )
        requires place { place < out.old.room.refused }
        requires room { HasRoom out.old }
        requires state { IsState map.now (state_of self.old world.old.records) }
        ensures received { receiving_of (state_of self.new world.new.records) out.new.lists
            ≡ receiving.after_join (answers.join_answer map.now (state_of self.old world.old.records) port)
            (receiving_of (state_of self.old world.old.records) out.old.lists) place port }
        ensures room { out.new.room ≡ out.old.room }
        ensures tree { world.new.tree ≡ world.old.tree }
        ensures world { IsWorldAfter world.old world.new out.old.lists.joined out.new.lists.joined }
        ensures state { IsState map.now (state_of self.new world.new.records) }
    {
        match self.join_answer(map, world, port) {
            Ok(JoinPoint { slot, at }) => {
                self.join(slot, port);
                world.add(newcomer(slot, at));
                out.join(port, slot);
            }
            Err(why) => out.refuse(place, why),
        }
    }

    /// What a leave changes, at this place of the frame.
    fn receive_leave(&mut self, place: usize, port: u16, out: &mut Received)
        requires place { place < out.old.room.refused }
        requires room { HasRoom out.old }
        ensures received { (records : List (Option Rec)) → receiving_of (state_of self.new records) out.new.lists
            ≡ receiving.after_leave (answers.leave_answer self.old port) (receiving_of (state_of self.old records)
            out.old.lists) place }
        ensures room { out.new.room ≡ out.old.room }
        ensures joined { out.new.lists.joined ≡ out.old.lists.joined }
        ensures live { (records : List (Option Rec)) → HaveSameLive self.old records → HaveSameLive self.new records }
    {
        match self.leave_answer(port) {
            Ok(live) => self.update(live),
            Err(why) => out.refuse(place, why),
        }
    }

    /// What a move packet with these commands changes, at this place of the frame: its new commands are accepted, all or
    /// none.
    fn receive_moves(
        &mut self,
        frame: u32,
        place: usize,
        port: u16,
        steps: &[MovePacket],
        out: &mut Received,
    )
        requires steps { All TakesItsTime steps.now }
        requires place { place < out.old.room.refused }
        requires room { HasRoom out.old }
        requires moves { AreClients self.old → IfOk (answers.move_answer self.old port steps.now)
            (λ l. length out.old.lists.moves + length (new_among l.client.last steps.now) ≤ out.old.room.moves) }
        ensures received { (records : List (Option Rec)) → receiving_of (state_of self.new records) out.new.lists
            ≡ receiving.after_commands frame steps.now (receiving_of (state_of self.old records) out.old.lists) place
            port }
        ensures room { out.new.room ≡ out.old.room }
        ensures joined { out.new.lists.joined ≡ out.old.lists.joined }
        ensures live { (records : List (Option Rec)) → HaveSameLive self.old records → HaveSameLive self.new records }
    {
        match self.move_answer(port, steps) {
            Ok(live) => {
                self.update(with_new_moves(live, steps));
                accept_new(frame, live, steps, out);
            }
            Err(why) => out.refuse(place, why),
        }
    }

    /// What one packet changes, at this place of the frame.
    fn receive_one(
        &mut self,
        map: &ArenaMap,
        world: &mut World,
        frame: u32,
        place: usize,
        arrival: &Arrival,
        out: &mut Received,
    )
        requires place { place < out.old.room.refused }
        requires room { HasRoom out.old }
        requires moves { AreClients self.old → length (receiving.after_arrival map.now frame (receiving_of
            (state_of self.old world.old.records) out.old.lists) place arrival.now).lists.moves ≤ out.old.room.moves }
        requires state { IsState map.now (state_of self.old world.old.records) }
        ensures received { receiving_of (state_of self.new world.new.records) out.new.lists
            ≡ receiving.after_arrival map.now frame (receiving_of (state_of self.old world.old.records) out.old.lists)
            place arrival.now }
        ensures room { out.new.room ≡ out.old.room }
        ensures tree { world.new.tree ≡ world.old.tree }
        ensures world { IsWorldAfter world.old world.new out.old.lists.joined out.new.lists.joined }
        ensures state { IsState map.now (state_of self.new world.new.records) }
    {
        match read_packet(arrival.bytes.as_slice()) {
            Ok(Packet::Join) => self.receive_join(map, world, place, arrival.port, out),
            Ok(Packet::Move(m)) => self.receive_moves(frame, place, arrival.port, &[m], out),
            Ok(Packet::Moves(s)) => {
                let steps = moves_of_packet(&s);
                self.receive_moves(frame, place, arrival.port, steps.as_slice(), out);
            }
            Ok(Packet::Leave) => self.receive_leave(place, arrival.port, out),
            Err(fault) => out.refuse(place, Refusal::Packet(fault)),
        }
    }

    /// The receive pass: the packets of a frame, in their order. The world gets the records of the players that join, in
    /// the order of their joins, and no link changes otherwise. It takes no memory.
    pub fn receive(
        &mut self,
        map: &ArenaMap,
        world: &mut World,
        frame: u32,
        arrivals: &[Arrival],
        out: &mut Received,
    )
        requires empty { out.old.lists ≡ no_lists }
        requires room { IsRoomFor (length arrivals.now) out.old.room }
        requires live { HaveSameLive self.old world.old.records }
        requires valid { IsValidWorld map.now world.old.records }
        ensures received { receiving_of (state_of self.new world.new.records) out.new.lists
            ≡ receiving.received map.now frame (state_of self.old world.old.records) arrivals.now }
        ensures room { out.new.room ≡ out.old.room }
        ensures world { world.new ≡ with_records world.old (players_of world.new.records out.new.lists.joined) }
        ensures unchanged { out.new.lists.joined ≡ [] → world.new ≡ world.old }
        ensures tree { world.new.tree ≡ world.old.tree }
        ensures live { HaveSameLive self.new world.new.records }
        ensures valid { IsValidWorld map.now world.new.records }
    {
        let mut place = 0;
        for arrival in arrivals {
            self.receive_one(map, world, frame, place, arrival, out);
            place += 1;
        }
    }
}
