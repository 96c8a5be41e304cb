//! The input is served over the store in a file.
use crate::name::OpenName;
use crate::serve::Service;
use crate::tally::Ended;
use block_host::InFile;
use program_arguments::Serving;
use program_files::{Refused, close, open_numbered, open_store};
use sector_device::Device;
use std::alloc::Global;
use std::fs::File;
use std::io::{BufRead, Write};
use std::rt::{Clock, Files};
use store_file::Troubled;

// Serves the input over the store, flushes what is not flushed yet behind its last line, and tells how it ended.
fn serve_all<
    R: Files<File = File> + AllocGlobal,
    D: Device + Troubled,
    I: BufRead,
    W: Write,
    E: Write,
>(
    alloc: Global,
    service: &mut Service<D>,
    name: &OpenName<'_, R>,
    input: &mut I,
    output: &mut W,
    errors: &mut E,
) -> Result<Ended, Refused> {
    let served = service.serve_lines(alloc, name, input, output, errors);
    let flushed = service.flush();
    service.tell(name.is_lost(), errors);
    let ended = service.sum_up(errors);
    flushed?;
    served?;
    Ok(ended)
}

// The same over the store on the disk, whose use is ended then.
fn run_disk<
    R: Files<File = File> + AllocGlobal,
    D: Device + Troubled + InFile + Drop,
    I: BufRead,
    W: Write,
    E: Write,
>(
    alloc: Global,
    disk: D,
    name: &OpenName<'_, R>,
    serving: Serving,
    input: &mut I,
    output: &mut W,
    errors: &mut E,
) -> Result<Ended, Refused> {
    let mut service = Service::new(open_store(alloc, disk)?, serving);
    let ended = serve_all(alloc, &mut service, name, input, output, errors);
    let closed = close(service.into_device());
    let ended = ended?;
    closed?;
    Ok(ended)
}

/// Serves the input over the store in the file, line by line, and tells how it ended. What is not flushed behind the
/// last line is flushed.
pub fn run_file<R: Files<File = File> + Clock + AllocGlobal, I: BufRead, W: Write, E: Write>(
    rt: &R,
    path: &str,
    serving: Serving,
    input: &mut I,
    output: &mut W,
    errors: &mut E,
) -> Result<Ended, Refused> {
    let (disk, number) = open_numbered(rt, path, serving.wait)?;
    let name = OpenName::new(rt, path, number);
    run_disk(rt.alloc(), disk, &name, serving, input, output, errors)
}
