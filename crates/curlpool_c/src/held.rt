//! The place of what lies behind a handle, or none: a pointer whose type names no other one, so
//! that it can be passed to C.

ghost use Rattle.std.specs.Prelude.{◌≡◌, IsSome, None, Option, Some};
ghost use Rattle.curlpool_c.specs.declared.inner.Inner.{Inner};
ghost use Rattle.curlpool_c.specs.Owned.{held_owns, inner_coded};

mod parts;

use crate::inner::Inner;
use parts::Parts;
use std::alloc::Global;
use std::marker::Model;
use std::ptr;

/// Stands for what lies behind the pointer.
#[repr(C)]
#[derive(Drop)]
pub struct Opaque {
    byte: u8,
}

/// It owns what a box at its pointer owns, where there is a value.
#[repr(C)]
#[derive(Drop)]
pub struct Held {
    ptr: *mut Opaque,
    alloc: Global,
    pub ghost value: { Option Inner } by { inner_coded },
}

impl Model for Held {
    ghost also_owns = { λ h. held_owns h.alloc h.ptr h.value };
}

impl Held {
    // The place of a box.
    #[inline(always)]
    pub(crate) fn of_box(inner: Box<Inner>) -> Held
        ensures { result.value ≡ Some inner.value }
    {
        Held::of_parts(Parts::of(inner))
    }

    // The box of a place.
    #[inline(always)]
    pub(crate) fn into_box(self) -> Box<Inner>
        requires { IsSome self.value }
        ensures { self.value ≡ Some result.value }
    {
        self.into_parts().into_box()
    }

    // No place.
    #[inline(always)]
    pub(crate) fn none(alloc: Global) -> Held
        ensures { result.value ≡ None }
    {
        Held {
            ptr: ptr::null_mut(),
            alloc,
        }
    }

    #[inline(always)]
    fn of_parts(parts: Parts<Inner, Global>) -> Held
        ensures { result.value ≡ Some parts.value }
    {
        let Parts { ptr, alloc } = parts;
        Held {
            ptr: ptr as *mut Opaque,
            alloc,
        }
    }

    #[inline(always)]
    fn into_parts(self) -> Parts<Inner, Global>
        requires { IsSome self.value }
        ensures { self.value ≡ Some result.value }
    {
        let Held { ptr, alloc } = self;
        Parts {
            ptr: ptr as *mut Inner,
            alloc,
        }
    }
}
