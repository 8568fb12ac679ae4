//! Snapshots: the bytes of what a player sees at the end of a frame, and what such bytes say.
#![tactic(auto)]

pub use laws::{
    limits_are_known, no_fault_where_spelled, one_spelling, read_where_spelled,
    snapshots_agree_on_origins, snapshots_show_players_themselves,
    snapshots_show_what_is_within_sight, snapshots_show_who_is_in_sight,
    written_snapshots_are_read,
};
pub use reading::read_snapshot;
pub use reply_buf::{REPLY_ROOM, ReplyBuf};
pub use seen::{MOST_SEEN, Seen, SeenList};
pub use snap_fault::SnapFault;
pub use snapshot::Snapshot;
pub use writing::write_snapshot;

mod laws;
mod reading;
mod reply_buf;
mod seen;
mod seen_ids;
mod snap_fault;
mod snapshot;
mod writing;
