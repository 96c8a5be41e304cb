//! A handle: what C keeps of an index.
ghost use Rattle.std.specs.Prelude.{◌≡◌, IfNone, IfSome, Some, None};
ghost use Rattle.nsf_index_c.specs.Full.{flag_of};

use crate::held::Held;
use crate::pointer::Pointer;
use std::alloc::Global;
use std::mem;

/// Where an index is, and whether one is open under the handle.
#[repr(C)]
#[derive(Drop)]
pub struct Handle {
    pub at: Pointer,
    pub is_open: u32,
    pub ghost agrees: { is_open ≡ flag_of at.value },
}

impl Handle {
    fn none() -> Handle
        ensures { result.at.value ≡ None }
    {
        Handle {
            at: Pointer::none(),
            is_open: 0,
        }
    }

    /// The index that is open under the handle, if one is; none is then.
    pub(crate) fn take(&mut self, alloc: Global) -> Option<Box<Held>>
        ensures taken { IfSome result (λ held. self.old.at.value ≡ Some held.value) }
        ensures none { IfNone result (self.old.at.value ≡ None) }
        ensures rest { self.new.at.value ≡ None }
    {
        let Handle { at, is_open } = mem::replace(self, Handle::none());
        if is_open == 0 {
            return None;
        }
        Some(at.into_box(alloc))
    }

    /// Opens the index under the handle.
    pub(crate) fn put(&mut self, held: Box<Held>)
        ensures { self.new.at.value ≡ Some held.value }
    {
        *self = Handle {
            at: Pointer::of(held),
            is_open: 1,
        };
    }
}
