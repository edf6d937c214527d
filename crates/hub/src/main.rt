//! The program: its command, on the words that it was called with and the standard streams.
#![tactic(auto)]

mod handover;
mod system;

use crate::handover::start_writer;
use crate::system::HostSystem;
use hub_program::fault::Fault;
use hub_program::{command, complain};
use std::alloc::AllocError;
use std::process::ExitCode;
use std::{env, io};

/// The words that the program was called with.
fn words(rt: &HostRuntime) -> io::Result<Vec<String>> {
    let words: Result<Vec<String>, AllocError> = env::args(rt)?.collect(rt.alloc());
    Ok(words?)
}

/// Whether the words ask for a server.
fn is_server(words: &[String]) -> bool {
    match words.get(1) {
        Some(word) => word.as_str() == "serve",
        None => false,
    }
}

fn main(rt: HostRuntime) -> ExitCode {
    let mut reader = rt.reader();
    let mut writer = io::writer(&rt);
    let stderr = rt.stderr();
    let mut errors = io::writer(&stderr);
    let status = match words(&rt) {
        Ok(words) => {
            let handover = if is_server(&words) {
                start_writer(rt, rt.alloc(), rt.stderr())
            } else {
                None
            };
            let system = HostSystem { rt: &rt, handover };
            command(
                &rt,
                rt.alloc(),
                &system,
                &system,
                &words,
                &mut reader,
                &mut writer,
                &mut errors,
            )
        }
        Err(error) if error.kind() == io::ErrorKind::OutOfMemory => {
            match rt.println("refused 45 OutOfMemory") {
                Ok(()) => 1,
                Err(error) => {
                    complain(&mut errors, &Fault::Output(error));
                    3
                }
            }
        }
        Err(_) => {
            complain(&mut errors, &Fault::Argument);
            2
        }
    };
    ExitCode::from(status)
}
