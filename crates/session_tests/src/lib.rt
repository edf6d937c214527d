//! Tests of sessions: over readers and writers that fail, with the longest lines, flush by flush, and while others hold
//! their subscribers' jobs.
#![tactic(auto)]

#[cfg(test)]
mod faults;
#[cfg(test)]
mod flushes;
#[cfg(test)]
mod lines;
#[cfg(test)]
mod long_lines;
#[cfg(test)]
mod replays;
#[cfg(test)]
mod taken_jobs;
