ghost use Rattle.std.specs.Prelude.{◌≡◌, ◌≤◌, ◌+◌, ◌%◌, false, length, IfOk, OnOk, OnErr};
ghost use Rattle.entity_recs.specs.Commands.{command_of};
ghost use Rattle.entity_recs.specs.Histories as histories;
ghost use Rattle.core_steps.specs.Machine.{IsPending};
ghost use Rattle.core_steps.specs.Points.{Idle};
ghost use Rattle.core_steps.specs.Reads.{region_in};
ghost use Rattle.core_seats.specs.Refusals.{AreRefusals};
ghost use Rattle.ruled_words.specs.GivingUp.{NoTakeWasRefused};
ghost use Rattle.ruled_words.specs.Hands.{IsOwnHand, plain_pass};
ghost use Rattle.ruled_words.specs.Passes.{fixed_in, IsOwn};
ghost use Rattle.shared_moves.specs.Runs.{AreHeldBy, HasMoved, HasLeft};

use crate::gate::{Gate, show_moment};
use crate::moment::Moment;
use crate::move_room::MoveRoom;
use arena_geo::Region;
use core_seats::{LoadedPlayer, Refusals};
use entity_recs::{Action, Cmd, Effect, Entry};
use move_journal::same_reply;
use ruled_words::{GivenUp, Hand, Held, Patience, SharedWords};

/// The entry of a move that was committed at this place.
fn entry_of(place: u64, cmd: &Cmd, effect: &Effect) -> Entry
    ensures { result ≡ histories.entry_of place (command_of cmd.now) effect.now }
{
    Entry {
        place,
        slot: cmd.slot,
        seq: cmd.seq,
        reply: same_reply(&effect.reply),
    }
}

/// What the command takes, reads and writes, by these words of the own record and the region that they give.
fn held_for<A: Action>(
    words: &SharedWords<A>,
    cmd: &Cmd,
    own: LoadedPlayer,
    region: &Region,
) -> Held
    requires six { length own ≡ 6 }
    requires region_is { region.now ≡ region_in (fixed_in A.meaning words.now) (command_of cmd.now) own }
    ensures { AreHeldBy (fixed_in A.meaning words.now) result (command_of cmd.now) own }
{
    let rules = words.rules();
    let (leaves, inner) = rules.node_bits(region);
    let wanted = rules.nodes_of(leaves);
    Held {
        slot: cmd.slot,
        own,
        leaves,
        inner,
        wanted,
    }
}

/// Runs the command on a hand that rests, and gives its entry. There is room for 64 records near it and all that live at the
/// start. `Err` where a node was held, and the patience doesn't wait for it: all that the hand held is given back, and the
/// command is no longer in hand.
pub fn walk<A: Action, P: Patience, G: Gate>(
    words: &SharedWords<A>,
    patience: &P,
    hand: &mut Hand,
    refusals: &mut Refusals,
    room: &mut MoveRoom,
    cmd: &Cmd,
    gate: &G,
) -> Result<Entry, GivenUp>
    requires own { IsOwn A.meaning words.now (plain_pass hand.old) }
    requires idle { hand.old.view.point ≡ Idle }
    requires pending { IsPending (fixed_in A.meaning words.now) hand.old.view (command_of cmd.now) }
    requires serves { cmd.now.slot % length words.now.rooms ≡ hand.old.number }
    requires room { 64 + length (fixed_in A.meaning words.now).start.ids ≤ room.old.near.room }
    ensures own { IsOwnHand A.meaning words.now hand.new }
    ensures moved { IfOk result (λ e. HasMoved (command_of cmd.now) e hand.old hand.new) }
    ensures served { OnOk result (P.waits ≡ false → NoTakeWasRefused hand.old hand.new) }
    ensures at_once { OnErr result (P.waits ≡ false) }
    ensures left { OnErr result
        (HasLeft (fixed_in A.meaning words.now) (length words.now.rooms) (command_of cmd.now) hand.old hand.new) }
    ensures refusals { AreRefusals refusals.old hand.old.view → AreRefusals refusals.new hand.new.view }
    ensures room { room.new.near.room ≡ room.old.near.room }
{
    let own = words.own_words(hand, cmd);
    let region = words.region_of(hand, cmd, &own);
    let held = held_for(words, cmd, own, &region);
    words.take_leaves(patience, hand, refusals, &held)?;
    gate.at(&Moment::at_leaves(hand, cmd));
    let again = words.own_again(hand, cmd.slot);
    let seen = words.read_nodes(patience, hand, refusals, &held, &mut room.by_slot)?;
    let effect = words.read_effect(
        hand,
        &mut room.near,
        cmd,
        &region,
        &again,
        seen,
        &room.by_slot,
    );
    gate.at(&Moment::at_effect(words, hand, cmd, &effect));
    let place = words.write_effect(patience, hand, refusals, &held, &again, &effect)?;
    let committed = Moment::at_commit(hand, cmd, entry_of(place, cmd, &effect));
    let entry = show_moment(committed, gate).unwrap();
    words.return_leaves(hand, &held);
    Ok(entry)
}
