// The C library. Each export is a call of one proved function, whose answer it hands on, and has that function's contract.
// include/vbus.h declares them.
#![tactic(auto)]

mod block_packets;
mod receivers;
mod recordings;
mod records;
mod senders;
mod slave_ids;
mod slave_tables;
mod streams;
