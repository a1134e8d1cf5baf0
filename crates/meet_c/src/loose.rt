//! A box that C keeps between two calls as a plain pointer.

ghost use Rattle.std.specs.Prelude.{◌≡◌, Option, Some, None, true, IfSome};
ghost use Rattle.std.specs.Option.{is_some};
ghost use Rattle.meet_c.specs.Owned.{held_owns};
ghost use Rattle.meet_c.specs.declared.held.Held.{Held};

mod parts;

use crate::held::Held;
use parts::Parts;
use std::alloc::Global;
use std::marker::{Model, Send};

/// A box of what is held, as its place; or none.
#[repr(C)]
#[derive(Drop)]
pub struct Loose {
    at: *mut u8,
    alloc: Global,
    /// What is held.
    pub ghost value: { Option Held },
}

impl Model for Loose {
    ghost also_owns = { λ l. held_owns l.alloc l.at l.value };
}

unsafe impl Send for Loose {}

impl Loose {
    /// No box.
    fn none(alloc: Global) -> Loose
        ensures { result.value ≡ None }
    {
        Loose {
            at: std::ptr::null_mut(),
            alloc,
        }
    }

    /// A box that was taken apart.
    fn of_parts(parts: Parts<Held, Global>) -> Loose
        ensures { result.value ≡ Some parts.value }
    {
        let Parts { ptr, alloc } = parts;
        Loose {
            at: ptr as *mut u8,
            alloc,
        }
    }

    /// The parts of its box.
    fn into_parts(self) -> Parts<Held, Global>
        requires { is_some self.value ≡ true }
        ensures { self.value ≡ Some result.value }
    {
        let Loose { at, alloc } = self;
        Parts {
            ptr: at as *mut Held,
            alloc,
        }
    }
}

/// A handle, as C keeps it: a flag and an address. If the flag isn't set it holds nothing.
#[repr(C)]
#[derive(Drop)]
pub struct Handle {
    live: bool,
    /// The box of what it holds.
    pub loose: Loose,
    ghost live_is: { live ≡ is_some loose.value },
}

impl Handle {
    /// A handle of nothing.
    pub(crate) fn empty(alloc: Global) -> Handle
        ensures { result.loose.value ≡ None }
    {
        Handle {
            live: false,
            loose: Loose::none(alloc),
        }
    }

    /// A handle of what this box holds.
    pub(crate) fn of(held: Box<Held, Global>) -> Handle
        ensures { result.loose.value ≡ Some held.value }
    {
        Handle {
            live: true,
            loose: Loose::of_parts(Parts::of(held)),
        }
    }

    /// The box of what it holds, if anything.
    pub(crate) fn into_box(self) -> Option<Box<Held, Global>>
        ensures some { IfSome result (λ held. self.loose.value ≡ Some held.value) }
        ensures none { result ≡ None → self.loose.value ≡ None }
    {
        let Handle { live, loose } = self;
        if live {
            Some(loose.into_parts().into_box())
        } else {
            None
        }
    }

    /// Takes out what it holds, if anything; it holds nothing after that.
    pub(crate) fn take(&mut self, alloc: Global) -> Option<Box<Held, Global>>
        ensures some { IfSome result (λ held. self.old.loose.value ≡ Some held.value) }
        ensures none { result ≡ None → self.old.loose.value ≡ None }
        ensures empty { self.new.loose.value ≡ None }
    {
        std::mem::replace(self, Handle::empty(alloc)).into_box()
    }
}

/// Whether a value of this type may go to another thread.
fn may_go<T: Send>() {}

/// States that C may hand a handle from thread to thread, one call at a time. It does nothing.
pub fn handles_may_go() {
    may_go::<Handle>();
}
