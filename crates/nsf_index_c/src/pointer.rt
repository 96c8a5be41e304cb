//! The pointer to an index that C keeps.
//!
//! This file alone reaches the pointer, in three short functions whose proofs are written by hand, as are the two of
//! `loose`. What they show: a pointer that came from a box is the same box again.
ghost use Rattle.std.specs.Prelude.{◌≡◌, Option, Some, None};
ghost use Rattle.nsf_index_c.specs.Full.{IsFull};
ghost use Rattle.nsf_index_c.specs.declared.held.Held.{Held};
ghost use Rattle.std.specs.Coded.{coded_option};
ghost use Rattle.nsf_index_c.specs.contracts.held.Held.{the_row};

use crate::held::Held;
use crate::loose::Loose;
use std::alloc::Global;
use std::marker::Model;
use std::ptr;

/// Where an index is, if there is one.
#[repr(C)]
#[derive(Drop)]
pub struct Pointer {
    at: *mut u8,
    pub ghost value: { Option Held } by { coded_option the_row.coded },
}

impl Model for Pointer {
    ghost use Rattle.nsf_index_c.specs.Owned.{owned};
    ghost use Rattle.nsf_index_c.specs.contracts.held.Held.{the_row};

    ghost also_owns = { λ h. owned the_row h.at h.value };
}

impl Pointer {
    pub(crate) fn none() -> Pointer
        ensures { result.value ≡ None }
    {
        Pointer {
            at: ptr::null_mut(),
        }
    }

    fn some(loose: Loose<Held, Global>) -> Pointer
        ensures { result.value ≡ Some loose.value }
    {
        let Loose { at, alloc: _ } = loose;
        Pointer { at: at as *mut u8 }
    }

    fn into_loose(self, alloc: Global) -> Loose<Held, Global>
        requires { IsFull self.value }
        ensures { self.value ≡ Some result.value }
    {
        let Pointer { at } = self;
        Loose {
            at: at as *mut Held,
            alloc,
        }
    }

    /// The box that the pointer came from.
    pub(crate) fn into_box(self, alloc: Global) -> Box<Held>
        requires { IsFull self.value }
        ensures { self.value ≡ Some result.value }
    {
        self.into_loose(alloc).into_box()
    }

    /// The pointer of a box.
    pub(crate) fn of(held: Box<Held>) -> Pointer
        ensures { result.value ≡ Some held.value }
    {
        Pointer::some(Loose::of(held))
    }
}
