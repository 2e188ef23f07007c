// A value that a shared reference cannot reach, so that any number of threads may hold such a reference.

ghost use Rattle.std.specs.Prelude.{◌≡◌};

use std::marker::Model;
use std::mem;

/// A value that is reached by `&mut` or by ownership alone. A contract sees the value itself.
pub struct Exclusive<T> {
    inner: T,
}

impl<T> Model for Exclusive<T> {
    ghost use base.Fml.{ftrue};

    ghost Value = { T };

    ghost view = { λ s. s.inner };

    ghost also_owns = { λ _. ftrue };
}

impl<T> Exclusive<T> {
    /// Wraps the value.
    pub fn new(inner: T) -> Exclusive<T>
        ensures { result ≡ inner }
    {
        Exclusive { inner }
    }

    /// Gives the value back.
    pub fn into_inner(self) -> T
        ensures { result ≡ self }
    {
        let Exclusive { inner } = self;
        inner
    }

    /// Puts another value in its place, and gives what was there.
    pub fn replace(&mut self, next: T) -> T
        ensures result { result ≡ self.old }
        ensures new { self.new ≡ next }
    {
        mem::replace(&mut self.inner, next)
    }
}

impl<T: Drop> Drop for Exclusive<T> {
    fn drop(self) {
        let Self { inner: _ } = self;
    }
}

// It can go to another thread where the value can.
unsafe impl<T: Send> Send for Exclusive<T> {}

// A shared reference reaches nothing, so several threads may have one where the value may change threads. (It is proved.)
unsafe impl<T: Send> Sync for Exclusive<T> {}
