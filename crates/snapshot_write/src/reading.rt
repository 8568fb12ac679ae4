ghost use Rattle.std.specs.Prelude.{◌≡◌, ◌+◌, ◌*◌, ◌≤◌, ◌<◌, ◌↔◌, [], ◌∷◌, map, find, length, drop, Some, None, IfOk};
ghost use Rattle.std.specs.Prelude.{if◌then◌else◌};
ghost use Rattle.std.specs.Simd.{first_chunks};
ghost use Rattle.snapshot_write.specs.declared.snapshot.Snapshot.{Snapshot};
ghost use Rattle.snapshot_write.specs.declared.snap_fault.SnapFault.{SnapFault};
ghost use Rattle.snapshot_write.specs.declared.snap_fault.SnapFault.TheVariants.{Count, Long};
ghost use Rattle.snapshot_write.specs.Spelling.{Spells};
ghost use Rattle.snapshot_write.specs.Fields as fields;
ghost use Rattle.snapshot_write.specs.Faults as faults;
ghost use Rattle.snapshot_write.specs.Reading.{reading, answer, snapshot_in, own_in, seen_in};

use crate::reply_buf::{BLOCK, HEAD};
use crate::seen::{Seen, SeenList};
use crate::snap_fault::SnapFault;
use crate::snapshot::Snapshot;
use arena_geo::Vec3;
use entity_recs::{IDS, Kind, PLAYER_MAXS, PLAYER_MINS, Rec};

/// The version of the snapshots.
const VERSION: u8 = 1;

/// The number of 16 bits at `i`.
fn u16_at(bytes: &[u8], i: usize) -> u16
    requires { i + 2 ≤ length bytes.now }
    ensures { result ≡ fields.short_at bytes.now i }
{
    u16::from_le_bytes([bytes[i], bytes[i + 1]])
}

/// The number of 32 bits at `i`.
fn u32_at(bytes: &[u8], i: usize) -> u32
    requires { i + 4 ≤ length bytes.now }
    ensures { result ≡ fields.number_at bytes.now i }
{
    u32::from_le_bytes([bytes[i], bytes[i + 1], bytes[i + 2], bytes[i + 3]])
}

/// The number of 32 bits with a sign at `i`.
fn i32_at(bytes: &[u8], i: usize) -> i32
    requires { i + 4 ≤ length bytes.now }
    ensures { result ≡ fields.signed_at bytes.now i }
{
    i32::from_le_bytes([bytes[i], bytes[i + 1], bytes[i + 2], bytes[i + 3]])
}

/// The vector at `i`.
fn vector_at(bytes: &[u8], i: usize) -> Vec3
    requires { i + 12 ≤ length bytes.now }
    ensures { result ≡ fields.vector_at bytes.now i }
{
    Vec3 {
        x: i32_at(bytes, i),
        y: i32_at(bytes, i + 4),
        z: i32_at(bytes, i + 8),
    }
}

/// The blocks of the entities, so many of them, which come after the player's own bytes.
fn blocks_in(bytes: &[u8], count: usize) -> &[[u8; BLOCK]]
    requires room { 43 + 16 * count ≤ length bytes.now }
    ensures { result.now ≡ first_chunks 16 count (drop 43 bytes.now) }
{
    let (blocks, _rest) = bytes[HEAD..].as_chunks::<BLOCK>();
    &blocks[..count]
}

/// The id of the entity of a block.
fn id_of(block: &[u8; BLOCK]) -> u16
    ensures { result ≡ fields.id_in block.now }
{
    u16_at(block, 0)
}

/// Whether the id of each block is below that of the next.
fn are_rising(blocks: &[[u8; BLOCK]]) -> bool
    ensures { result ≡ faults.are_rising blocks.now }
{
    let next = blocks.iter().skip(1);
    blocks.iter().zip(next).all(|(a, b)| id_of(a) < id_of(b))
}

/// Whether a block has this id.
fn have_id(blocks: &[[u8; BLOCK]], id: u16) -> bool
    ensures { result ≡ faults.have_id id blocks.now }
{
    blocks.iter().any(|block| id_of(block) == id)
}

/// The player's own record, if each of its fields is in range.
fn read_own(bytes: &[u8]) -> Option<Rec>
    requires { 43 ≤ length bytes.now }
    ensures { result ≡ (if faults.has_wrong_own bytes.now then None else Some (own_in bytes.now)) }
{
    let [slot, flags, ammo, carry] = [bytes[5], bytes[30], bytes[31], bytes[32]];
    if slot > 63 || flags > 3 || ammo > 100 || carry > 8 {
        return None;
    }
    Some(Rec {
        id: u16::from(slot),
        kind: Kind::Player,
        origin: vector_at(bytes, 6),
        mins: PLAYER_MINS,
        maxs: PLAYER_MAXS,
        vel: vector_at(bytes, 18),
        flags,
        ammo,
        carry,
        score: u32_at(bytes, 33),
        seq: u32_at(bytes, 37),
        state: 0,
    })
}

/// The kind with a number.
fn kind_of(number: u8) -> Option<Kind>
    ensures { result ≡ (if faults.is_kind number then Some (fields.kind_of number) else None) }
{
    match number {
        0 => Some(Kind::Player),
        1 => Some(Kind::Ammo),
        2 => Some(Kind::Gem),
        3 => Some(Kind::Teleporter),
        4 => Some(Kind::Goal),
        5 => Some(Kind::Lift),
        _ => None,
    }
}

/// The entity of a block, if each of its fields is in range. Only an item can be taken.
fn read_block(block: &[u8; BLOCK]) -> Option<Seen>
    ensures { result ≡ (if faults.has_wrong_field block.now then None else Some (seen_in block.now)) }
{
    let id = id_of(block);
    let kind = kind_of(block[2])?;
    let status = block[3];
    if usize::from(id) >= IDS || status > 1 || (status == 0 && !kind.is_item()) {
        return None;
    }
    Some(Seen {
        id,
        kind,
        here: status == 1,
        origin: vector_at(block, 4),
    })
}

/// The entities of the blocks, if there are at most [`MOST_SEEN`](crate::MOST_SEEN) and each of their fields is in range.
fn read_seen(blocks: &[[u8; BLOCK]]) -> Option<SeenList>
    ensures { result ≡ (if faults.has_wrong_blocks blocks.now then None else Some (map seen_in blocks.now)) }
{
    let mut seen = SeenList::new();
    for block in blocks {
        let entity = read_block(block)?;
        if !seen.push(entity) {
            return None;
        }
    }
    Some(seen)
}

/// Reads the fields of a snapshot that is long enough, whose version and order are right: what is left is that each
/// field is in range, and that nothing follows.
fn read_fields(bytes: &[u8], blocks: &[[u8; BLOCK]], end: usize) -> Result<Snapshot, SnapFault>
    requires head { 43 ≤ length bytes.now }
    requires blocks { blocks.now ≡ fields.blocks_in bytes.now }
    requires end { end ≡ fields.length_with (fields.count_in bytes.now) }
    ensures { result ≡ answer (find (faults.breaks bytes.now) (Count ∷ Long ∷ [])) (snapshot_in bytes.now) }
{
    let own = read_own(bytes).ok_or(SnapFault::Count)?;
    let seen = read_seen(blocks).ok_or(SnapFault::Count)?;
    if bytes.len() > end {
        return Err(SnapFault::Long);
    }
    Ok(Snapshot {
        frame: u32_at(bytes, 1),
        own,
        seen,
    })
}

/// Reads a snapshot, or gives the first fault.
fn read_or_fault(bytes: &[u8]) -> Result<Snapshot, SnapFault>
    ensures { result ≡ reading bytes.now }
{
    if bytes.len() < HEAD {
        return Err(SnapFault::Short);
    }
    let count = usize::from(u16_at(bytes, 41));
    let end = HEAD + BLOCK * count;
    if bytes.len() < end {
        return Err(SnapFault::Short);
    }
    if bytes[0] != VERSION {
        return Err(SnapFault::Version);
    }
    let blocks = blocks_in(bytes, count);
    if !are_rising(blocks) || have_id(blocks, u16::from(bytes[5])) {
        return Err(SnapFault::Order);
    }
    read_fields(bytes, blocks, end)
}

/// The snapshot that the bytes spell, or the first fault in the order of [`SnapFault`]. It takes no memory.
pub fn read_snapshot(bytes: &[u8]) -> Result<Snapshot, SnapFault>
    // What is read is what the bytes spell, and what they spell is read.
    ensures found { IfOk result (λ s. Spells bytes.now s) }
    ensures only { (s : Snapshot) → Spells bytes.now s → result ≡ Ok s }
    // Each fault comes exactly where its rule is the first that is broken.
    ensures fault { (fault : SnapFault) → (result ≡ Err fault) ↔ (faults.fault_of bytes.now ≡ Some fault) }
    // The same as a function of the bytes.
    ensures answer { result ≡ reading bytes.now }
{
    read_or_fault(bytes)
}
