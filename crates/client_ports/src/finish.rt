ghost use Rattle.std.specs.Prelude.{◌≡◌, ◌<◌};
ghost use Rattle.arena_map.specs.Maps.{MapView};
ghost use Rattle.arena_map.specs.Validity.{IsValidWorld};
ghost use Rattle.client_ports.specs.States.{state_of, HaveSameLive};
ghost use Rattle.client_ports.specs.Clients as clients;
ghost use Rattle.client_ports.specs.Finishing.{finished, finished_at};
ghost use Rattle.client_ports.specs.Linking.{leavers_of, without_ids, world_finished_at};

use crate::client::{Client, LiveSlot};
use crate::ports::Ports;
use entity_recs::SLOTS;
use world_tree::World;

impl Ports {
    /// The end of a frame: the clients that leave are taken out, of the world too, in which no other link changes, and
    /// the others begin the next frame with no move. It takes no memory.
    pub fn finish(&mut self, world: &mut World)
        requires { HaveSameLive self.old world.old.records }
        ensures finished { state_of self.new world.new.records ≡ finished (state_of self.old world.old.records) }
        ensures world { world.new ≡ without_ids world.old (leavers_of self.old) }
        ensures tree { world.new.tree ≡ world.old.tree }
        ensures live { HaveSameLive self.new world.new.records }
        ensures valid { (map : MapView) → IsValidWorld map world.old.records → IsValidWorld map world.new.records }
    {
        for slot in 0..SLOTS as u8 {
            self.finish_slot(slot, world);
        }
    }

    /// The end of a frame for one slot.
    fn finish_slot(&mut self, slot: u8, world: &mut World)
        requires slot { slot < 64 }
        requires live { HaveSameLive self.old world.old.records }
        ensures finished { state_of self.new world.new.records ≡ finished_at (state_of self.old world.old.records)
            slot }
        ensures world { world.new ≡ world_finished_at (clients.client_at self.old slot) world.old slot }
        ensures tree { world.new.tree ≡ world.old.tree }
        ensures live { HaveSameLive self.new world.new.records }
        ensures valid { (map : MapView) → IsValidWorld map world.old.records → IsValidWorld map world.new.records }
    {
        match self.client_at(slot) {
            Some(client) if client.leaves => {
                self.free(slot);
                world.remove(u16::from(slot));
            }
            Some(client) => self.update(LiveSlot {
                slot,
                client: Client { moves: 0, ..client },
            }),
            None => {}
        }
    }
}
