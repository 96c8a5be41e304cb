//! Requests, as the commands of a script ask for them.
use program_commands::{Event, Request};
use program_script::{Command, read};
use records::Error;
use std::alloc::Global;

// What is asked for, and how often: `image` is one copy, and `dump` and `crash` ask how far the index is.
fn event_of(request: Request) -> (Event, u32) {
    match request {
        Request::Event(event) => (event, 1),
        Request::Build(count) => (Event::Build, count),
        Request::Clean(count) => (Event::Clean, count),
        Request::Flush => (Event::Flush, 1),
        Request::Image => (Event::Copy, 1),
        Request::Crash(_) | Request::Dump => (Event::Life, 1),
    }
}

fn asked_by(command: &Command) -> Result<(Event, u32), Error> {
    Ok(event_of(Request::of(command)?))
}

fn add_times(events: &mut Vec<Event>, event: &Event, times: u32) -> Result<(), Error> {
    for _ in 0..times {
        events.push(*event)?;
    }
    Ok(())
}

fn add_commands(events: &mut Vec<Event>, commands: &[Command]) -> Result<(), Error> {
    for command in commands {
        let (event, times) = asked_by(command)?;
        add_times(events, &event, times)?;
    }
    Ok(())
}

fn add_script(events: &mut Vec<Event>, alloc: Global, script: &str) -> Result<(), Error> {
    let commands = read(alloc, script.as_bytes())?;
    let added = add_commands(events, &commands);
    drop(commands);
    added
}

fn add_scripts(
    events: &mut Vec<Event>,
    alloc: Global,
    scripts: &[Script<'_>],
) -> Result<(), Error> {
    for (times, script) in scripts {
        for _ in 0..*times {
            add_script(events, alloc, script)?;
        }
    }
    Ok(())
}

/// How often a script stands there, and its text.
pub type Script<'a> = (u32, &'a str);

/// The requests of scripts, one behind the other: `image` is one copy, and `dump` asks how far the index is.
pub fn requests_of(alloc: Global, scripts: &[Script<'_>]) -> Result<Vec<Event>, Error> {
    let mut events = Vec::new(alloc);
    match add_scripts(&mut events, alloc, scripts) {
        Ok(()) => Ok(events),
        Err(error) => {
            drop(events);
            Err(error)
        }
    }
}

/// The requests of a script: `image` is one copy, and `dump` asks how far the index is.
pub fn requests(alloc: Global, script: &str) -> Result<Vec<Event>, Error> {
    requests_of(alloc, &[(1, script)])
}
