//! The handle that C holds, of zeros at first.

ghost use Rattle.std.specs.Prelude.{◌≡◌, None, Some, IfNone, IfSome, is_some};

use crate::held::Held;
use crate::inner::Inner;
use std::alloc::Global;
use std::mem;

/// `curlpool`: whether there is a pool behind the handle, and the place of it.
#[repr(C)]
pub struct Handle {
    there: bool,
    pub held: Held,
    ghost ok: { is_some held.value ≡ there },
}

impl Handle {
    // A handle of that pool.
    #[inline(always)]
    pub(crate) fn open(inner: Box<Inner>) -> Handle
        ensures { result.held.value ≡ Some inner.value }
    {
        Handle {
            there: true,
            held: Held::of_box(inner),
        }
    }

    // A handle without a pool.
    #[inline(always)]
    fn closed(alloc: Global) -> Handle
        ensures { result.held.value ≡ None }
    {
        Handle {
            there: false,
            held: Held::none(alloc),
        }
    }

    // Whether there is a pool.
    pub(crate) fn is_open(&self) -> bool
        ensures { result ≡ is_some self.now.held.value }
    {
        self.there
    }

    // Takes the pool out, if there is one.
    #[inline(always)]
    pub(crate) fn take(&mut self, alloc: Global) -> Option<Box<Inner>>
        ensures some { IfSome result (λ inner. self.old.held.value ≡ Some inner.value) }
        ensures none { IfNone result (self.old.held.value ≡ None) }
        ensures new { self.new.held.value ≡ None }
    {
        let old = mem::replace(self, Handle::closed(alloc));
        old.into_inner()
    }

    // Its pool.
    #[inline(always)]
    fn into_inner(self) -> Option<Box<Inner>>
        ensures some { IfSome result (λ inner. self.held.value ≡ Some inner.value) }
        ensures none { IfNone result (self.held.value ≡ None) }
    {
        let Handle { there, held } = self;
        if there { Some(held.into_box()) } else { None }
    }
}

impl Drop for Handle {
    fn drop(self) {
        drop(self.into_inner());
    }
}
