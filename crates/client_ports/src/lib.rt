//! The receive pass: which clients are joined in which slots, and what the packets of a frame change.
#![tactic(auto)]

pub use client::{Client, LiveSlot};
pub use laws::{
    accepted_numbers_rise, bodies_stay_clear, clients_stay_apart, each_packet_has_one_answer,
    each_packet_is_answered, finish_keeps_who_stays, finish_takes_leavers_out, joins_add_newcomers,
    joins_are_at_the_first_room, movers_are_live, moves_are_of_packets, moves_come_of_commands,
    nobody_is_added_into_a_solid, numbers_are_accepted_once, numbers_are_apart,
    numbers_rise_in_a_frame, opening_is_a_server_state, opening_is_clear,
    packets_are_taken_in_turn, players_have_few_moves, ports_are_apart, refusals_are_known,
    refusals_have_their_places, slot_is_least_free, states_stay_valid,
};
pub use ports::{MOST_MOVES, Ports};
pub use received::{Joined, MOST_FRAME_MOVES, Received, Refused};
pub use refusal::Refusal;
pub use spawns::JoinPoint;

mod client;
mod finish;
mod laws;
mod ports;
mod receive;
mod received;
mod refusal;
mod spawns;
