// Scenes, of which a test of files has some, one behind the other.
use crate::claims::claim_at;
use crate::steps::{Row, name_of, take};
use crate::watched::{Log, System, Watched};
use sector_device::Device;
use std::fs::File;
use std::process::Abort;
use std::rt::Files;
use store_file::{Detached, FileDisk, OpenError, StoreFile, Troubled, create, hold, open, read};

/// What is open while the steps of a scene are taken, over the file of this name.
#[derive(Clone, Copy)]
pub(crate) enum Opened {
    Nothing,
    /// A draft that was just made, of so many sectors.
    Draft(&'static str, u64),
    Disk(&'static str),
    Held(&'static str),
    /// A copy of what the file holds.
    Copy(&'static str),
}

/// What is open, the system, and the steps.
pub(crate) type Scene = (Opened, System, &'static [Row]);

/// The first step that came to something else than is wanted, and to what.
pub(crate) type Other = Option<(u64, &'static str)>;

// What the steps are taken on.
type Place<'a, R, F> = (&'a R, &'a F, &'a Log);

fn take_all<R: Files<File = File> + AllocGlobal, F: Files + AllocGlobal, D: Device + Troubled>(
    place: Place<'_, R, F>,
    disk: &mut D,
    rows: &[Row],
) -> Other
where
    F::File: StoreFile,
{
    let mut number: u64 = 0;
    for (path, step, wanted) in rows {
        number = number.saturating_add(1);
        let told = take(place, disk, *path, *step);
        if told != *wanted {
            return Some((number, told));
        }
    }
    None
}

// The same on a disk that was opened, which is let go.
fn take_over<
    R: Files<File = File> + AllocGlobal,
    F: Files + AllocGlobal,
    D: Device + Troubled + Drop,
>(place: Place<'_, R, F>, opened: Result<D, OpenError>, rows: &[Row]) -> Other
where
    F::File: StoreFile,
{
    match opened {
        Ok(mut disk) => {
            let other = take_all(place, &mut disk, rows);
            drop(disk);
            other
        }
        Err(error) => Some((0, name_of(Err(error)))),
    }
}

// A disk of no sector.
fn nothing<F: AllocGlobal>(files: &F) -> Result<FileDisk<Detached, std::alloc::Global>, OpenError> {
    Ok(FileDisk::new(files.alloc(), Detached, 0)?)
}

fn play_in<R: Files<File = File> + AllocGlobal, F: Files + AllocGlobal>(
    place: Place<'_, R, F>,
    opened: Opened,
    rows: &[Row],
) -> Other
where
    F::File: StoreFile,
{
    let (_, files, _) = place;
    let alloc = files.alloc();
    match opened {
        Opened::Nothing => take_over(place, nothing(files), rows),
        Opened::Draft(path, sectors) => take_over(place, create(files, alloc, path, sectors), rows),
        Opened::Disk(path) => take_over(place, open(files, alloc, path), rows),
        Opened::Held(path) => take_over(place, hold(files, alloc, path), rows),
        Opened::Copy(path) => take_over(place, read(files, alloc, path), rows),
    }
}

/// Plays a scene, whose calls of the system are noted here.
pub(crate) fn play_noted<R: Files<File = File> + AllocGlobal>(
    rt: &R,
    log: &Log,
    scene: &Scene,
) -> Other {
    let (opened, _, rows) = *scene;
    play_in((rt, &Watched { rt, log }, log), opened, rows)
}

// The number of a scene counts in hundreds.
fn play_one<R: Files<File = File> + AllocGlobal + Abort>(rt: &R, number: u64, scene: &Scene) {
    let log = Log::of(scene.1);
    let other = play_noted(rt, &log, scene);
    let is_met = log.is_met();
    drop(log);
    if let Some((row, told)) = other {
        claim_at(rt, false, "step", number.saturating_add(row), told);
    }
    claim_at(rt, is_met, "scene", number, "other calls of the system");
}

/// Plays scenes. Each step comes to what is wanted, and just the calls come that are to come. Else it is told which
/// step came to what: step 2 of scene 3 has the number 302, and so many more as stand before.
pub(crate) fn play<R: Files<File = File> + AllocGlobal + Abort>(
    rt: &R,
    before: u64,
    scenes: &[Scene],
) {
    let mut number = before;
    for scene in scenes {
        number = number.saturating_add(100);
        play_one(rt, number, scene);
    }
}
