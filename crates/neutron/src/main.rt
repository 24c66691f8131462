//! The program `neutron`: its words, standard input and standard output go to the command that they
//! name, with the desk and the links of the system.
#![tactic(auto)]

use keeper_core::{ReaderSource, WriterSink};
use neutron_command::command;
use neutron_serve::{unread_status, words};
use std::process::ExitCode;
use system_desk::{SystemDesk, SystemSink, SystemSource};
use system_link::SystemLink;

fn main(rt: HostRuntime) -> ExitCode {
    let alloc = rt.alloc();
    let words = match words(&rt, alloc) {
        Ok(words) => words,
        Err(error) => return ExitCode::from(unread_status(&error)),
    };
    let mut input = SystemSource::Input(ReaderSource::make(rt.stdin()));
    let mut output = SystemSink::Output(WriterSink::make(rt.stdout()));
    let mut desk = SystemDesk::make(rt);
    let mut link = SystemLink::make(rt);
    let words = words.as_slice();
    let status = command(alloc, words, &mut desk, &mut link, &mut input, &mut output);
    ExitCode::from(status)
}
