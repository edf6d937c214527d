//! A browser's door to a session: the head of the request before it, a WebSocket's text messages as a reader and a
//! writer, and what answers a request for a file.
#![tactic(auto)]

pub mod answer;
pub mod files;
pub mod head;
mod line;
pub mod messages;
mod output;
pub mod tags;
