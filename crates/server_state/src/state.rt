ghost use Rattle.std.specs.Prelude.{◌≡◌, length, IfOk};
ghost use Rattle.arena_map.specs.Maps.{IsMap, entities_of};
ghost use Rattle.world_tree.specs.Worlds.{empty_world, with_records};
ghost use Rattle.client_ports.specs.States.{state_of, HaveSameLive, IsServerState};
ghost use Rattle.client_ports.specs.Lists.{no_lists, IsRoomFor};
ghost use Rattle.client_ports.specs.Receiving.{receiving_of};
ghost use Rattle.client_ports.specs.Finishing.{finished};
ghost use Rattle.plain_server.specs.RecordsById.{opening};
ghost use Rattle.plain_server.specs.Frames.{received_in};

use arena_map::ArenaMap;
use client_ports::{Ports, Received};
use packet_read::Arrival;
use std::alloc::{AllocError, Global};
use world_physics::tick;
use world_tree::World;

/// The clients by slot beside the linked world.
#[derive(Drop)]
pub struct State {
    /// Which client has which slot, and the numbers of their commands.
    pub ports: Ports,
    /// The linked world.
    pub world: World,
}

/// The world before the first frame: a tree of the map's depth over its bounds, and the things of the map, each at its
/// id.
fn opening_world(alloc: Global, map: &ArenaMap) -> Result<World, AllocError>
    ensures made { IfOk result (λ w. w ≡ with_records (empty_world map.now.bounds map.now.depth) (entities_of map.now)) }
    ensures records { IfOk result (λ w. w.records ≡ (opening map.now).records) }
    ensures rules { IsMap map.now }
{
    World::new(alloc, map.bounds(), map.depth(), map.entities())
}

impl State {
    /// The state before the first frame: the things of the map are there, and nobody is joined.
    pub fn opening(alloc: Global, map: &ArenaMap) -> Result<State, AllocError>
        ensures world { IfOk result (λ s. s.world ≡ with_records (empty_world map.now.bounds map.now.depth) (entities_of map.now)) }
        ensures state { IfOk result (λ s. state_of s.ports s.world.records ≡ opening map.now) }
        ensures rules { IsMap map.now }
    {
        Ok(State {
            ports: Ports::new(),
            world: opening_world(alloc, map)?,
        })
    }

    /// Makes this state as the other, over the same tree. It takes no memory.
    pub fn copy_from(&mut self, o: &State)
        requires { self.old.world.tree ≡ o.now.world.tree }
        ensures { self.new ≡ o.now }
    {
        self.ports.copy_from(&o.ports);
        self.world.copy_from(&o.world);
    }

    /// The tick of a frame and its receive pass. It takes no memory.
    #[tactic(auto, using(crate::proofs::Openings::ticked_live))]
    pub fn receive(&mut self, map: &ArenaMap, frame: u32, arrivals: &[Arrival], out: &mut Received)
        requires fits { IsServerState map.now (state_of self.old.ports self.old.world.records) }
        requires empty { out.old.lists ≡ no_lists }
        requires room { IsRoomFor (length arrivals.now) out.old.room }
        ensures received { receiving_of (state_of self.new.ports self.new.world.records) out.new.lists
            ≡ received_in map.now frame (state_of self.old.ports self.old.world.records) arrivals.now }
        ensures room { out.new.room ≡ out.old.room }
        ensures tree { self.new.world.tree ≡ self.old.world.tree }
    {
        tick(map, &mut self.world, frame);
        self.ports
            .receive(map, &mut self.world, frame, arrivals, out);
    }

    /// The end of a frame: those that leave are taken out. It takes no memory.
    pub fn finish(&mut self)
        requires { HaveSameLive self.old.ports self.old.world.records }
        ensures finished { state_of self.new.ports self.new.world.records
            ≡ finished (state_of self.old.ports self.old.world.records) }
        ensures tree { self.new.world.tree ≡ self.old.world.tree }
    {
        self.ports.finish(&mut self.world);
    }
}
