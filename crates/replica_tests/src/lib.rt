//! Replicas that are handed the same messages in different orders, with repeats.
#![tactic(auto)]

#[cfg(test)]
mod own_text;
#[cfg(test)]
mod peers;
#[cfg(test)]
mod schedules;
