//! The store in a file comes into a new file.
use crate::damage::refuse_damaged;
use crate::length::refuse_longer;
use crate::migration::{NotMoved, copy_to, move_to};
use crate::refused::Refused;
use crate::salvaging::salvage_to;
use block_host::{FileDevice, HeldDevice, InFile, hold_device, hold_whole_device};
use records::Geometry;
use sector_device::Device;
use std::alloc::Global;
use std::fs::File;
use std::io::Write;
use std::rt::Files;
use store_file::Troubled;

/// How the store in an old file comes into a new one.
#[derive(Clone, Copy)]
pub enum Taking {
    /// One of version 2 or 3 is copied to a file of the same kind.
    Copy,
    /// One of version 1 is moved, or one of version 2 or 3 to a file of another kind, which is one of blocks where that
    /// is wanted.
    Move {
        has_blocks: bool,
    },
    /// The rows that can still be read of a damaged one are put into a store without an index. What is lost is printed,
    /// a line each: the sectors that can't be read, the half that was current, pages, and the log from a slot on. Where
    /// a geometry is given, it is taken for that of the store, whatever this itself says.
    Salvage {
        has_blocks: bool,
        geometry: Option<Geometry>,
    },
}

// Refused where a sector of the old disk is damaged, or there are more than its store needs.
fn refuse_old<O: Device + InFile + Troubled>(old: &mut O) -> Result<(), NotMoved> {
    if let Err(refused) = refuse_damaged(old) {
        return Err(NotMoved::Old(refused));
    }
    match refuse_longer(old) {
        Ok(()) => Ok(()),
        Err(refused) => Err(NotMoved::Old(refused)),
    }
}

// Puts the store on the old disk, which is that of a file of blocks or a plain one, into a new file.
fn take_from<R: Files<File = File> + AllocGlobal, O: Device + InFile + Troubled, W: Write>(
    rt: &R,
    old: &mut O,
    is_in_blocks: bool,
    new: &str,
    taking: Taking,
    output: &mut W,
) -> Result<(), NotMoved> {
    match taking {
        Taking::Copy => {
            refuse_old(old)?;
            copy_to(rt, old, new, is_in_blocks)
        }
        Taking::Move { has_blocks } => {
            refuse_old(old)?;
            move_to(rt, old, new, has_blocks, has_blocks == is_in_blocks)
        }
        Taking::Salvage {
            has_blocks,
            geometry,
        } => salvage_to(rt, old, new, (has_blocks, geometry), output),
    }
}

// The device in the old file. A salvage takes one that ends within a sector.
fn old_device<R: Files<File = File> + AllocGlobal>(
    rt: &R,
    old: &str,
    taking: &Taking,
) -> Result<HeldDevice<File, Global>, NotMoved> {
    let held = match taking {
        Taking::Salvage { .. } => hold_whole_device(rt, rt.alloc(), old),
        _ => hold_device(rt, rt.alloc(), old),
    };
    match held {
        Ok(disk) => Ok(disk),
        Err(error) => Err(NotMoved::Old(Refused::from(error))),
    }
}

/// Puts the store in the old file, which is only read and locked to the end, into a new file. Where that is refused
/// before the new file has its name, no file is left, if the draft can be removed. What is wrong with the old file is
/// told before what is wrong with the new one. Only a salvage takes a file with a damaged sector, or one that is longer
/// than its store, or ends within a sector, and prints.
pub fn take_over<R: Files<File = File> + AllocGlobal, W: Write>(
    rt: &R,
    old: &str,
    new: &str,
    taking: Taking,
    output: &mut W,
) -> Result<(), NotMoved> {
    let mut disk = old_device(rt, old, &taking)?;
    let is_in_blocks = matches!(disk, FileDevice::Blocks(_));
    take_from(rt, &mut disk, is_in_blocks, new, taking, output)
}
