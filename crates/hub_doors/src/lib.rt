//! Sessions over connections: over TCP, a socket file or a browser's WebSocket, all of them on one hub.
#![tactic(auto)]

mod accepting;
mod common;
mod deadline;
pub mod door;
mod ending;
pub mod fault;
mod file;
mod house;
pub mod journal;
mod lines;
mod link;
pub mod server;
mod session_share;
pub mod socket_file;
pub mod stream;
mod tally;
mod web;
