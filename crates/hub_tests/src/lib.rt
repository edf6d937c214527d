//! Tests of the program's commands of what no clause says and no case of `test_cases` shows: devices that fail, random
//! histories, random sessions with refused requests, and that there is help.
#![tactic(auto)]

#[cfg(test)]
mod answers;
#[cfg(test)]
mod devices;
#[cfg(test)]
mod help;
#[cfg(test)]
mod random_histories;
#[cfg(test)]
mod refused_requests;
#[cfg(test)]
mod spoiled_sessions;
