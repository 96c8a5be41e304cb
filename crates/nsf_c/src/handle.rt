//! A handle: the pointer to a store that C keeps.
//!
//! This file alone reaches the pointer, in three short functions whose proofs are written by hand, as are the two of
//! `loose`. What they show: a pointer that came from a box is the same box again.
ghost use Rattle.std.specs.Prelude.{◌≡◌, Option, Some, None};
ghost use Rattle.nsf_c.specs.Full.{IsFull};
ghost use Rattle.nsf_c.specs.declared.held.Held.{Held};
ghost use Rattle.std.specs.Coded.{coded_option};
ghost use Rattle.nsf_c.specs.contracts.held.Held.{the_row};

use crate::held::Held;
use crate::loose::Loose;
use std::alloc::Global;
use std::marker::Model;
use std::{mem, ptr};

/// Where a store is, if one is open under the handle.
#[repr(C)]
#[derive(Drop)]
pub struct Handle {
    at: *mut u8,
    pub ghost value: { Option Held } by { coded_option the_row.coded },
}

impl Model for Handle {
    ghost use Rattle.nsf_c.specs.Owned.{owned};
    ghost use Rattle.nsf_c.specs.contracts.held.Held.{the_row};

    ghost also_owns = { λ h. owned the_row h.at h.value };
}

impl Handle {
    fn none() -> Handle
        ensures { result.value ≡ None }
    {
        Handle {
            at: ptr::null_mut(),
        }
    }

    fn some(loose: Loose<Held, Global>) -> Handle
        ensures { result.value ≡ Some loose.value }
    {
        let Loose { at, alloc: _ } = loose;
        Handle { at: at as *mut u8 }
    }

    fn into_loose(self, alloc: Global) -> Loose<Held, Global>
        requires { IsFull self.value }
        ensures { self.value ≡ Some result.value }
    {
        let Handle { at } = self;
        Loose {
            at: at as *mut Held,
            alloc,
        }
    }

    /// The store that is open under the handle, under which none is then.
    pub(crate) fn take(&mut self, alloc: Global) -> Box<Held>
        requires { IsFull self.old.value }
        ensures taken { self.old.value ≡ Some result.value }
        ensures rest { self.new.value ≡ None }
    {
        mem::replace(self, Handle::none())
            .into_loose(alloc)
            .into_box()
    }

    /// Opens the store under the handle.
    pub(crate) fn put(&mut self, held: Box<Held>)
        ensures { self.new.value ≡ Some held.value }
    {
        *self = Handle::some(Loose::of(held));
    }
}
