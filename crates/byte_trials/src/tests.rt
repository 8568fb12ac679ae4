mod packets;
mod snapshots;
mod streams;
