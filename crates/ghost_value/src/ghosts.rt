ghost use Rattle.std.specs.Prelude.{◌≡◌};

use std::marker::{Model, PhantomData};

/// Which ghost value a value of the program shows.
pub trait Shown<T> {
    ghost shown: { Self → T };
}

/// A change of a ghost value, by a value of the program.
///
/// `after` takes that value and the ghost value before the change.
pub trait Change<T> {
    ghost after: { Self → T → T };
}

/// A `T` that only contracts see. It has no bytes, and is let go at no cost.
pub struct Ghost<T> {
    marker: PhantomData<T>,
    ghost value: { T },
}

impl<T> Model for Ghost<T> {
    ghost use base.Fml.{ftrue};

    ghost Value = { T };

    ghost view = { λ g. g.value };

    ghost also_owns = { λ _. ftrue };
}

impl<T> Ghost<T> {
    /// A ghost value: the one that `x` shows.
    #[inline]
    pub fn of<X: Shown<T>>(x: &X) -> Ghost<T>
        ensures value { result ≡ X.shown x.now }
    {
        let _ = x;
        Ghost {
            marker: PhantomData,
        }
    }

    /// Changes the value as `by` says.
    #[inline]
    pub fn change<C: Change<T>>(&mut self, by: &C)
        ensures value { self.new ≡ C.after by.now self.old }
    {
        *self = Ghost::of(&Changed { value: self, by });
    }
}

/// A ghost value shows itself, so that it can be copied.
impl<T> Shown<T> for Ghost<T> {
    ghost shown = { λ g. g };
}

/// A ghost value and its change.
#[derive(Drop)]
struct Changed<'a, T, C> {
    value: &'a Ghost<T>,
    by: &'a C,
}

impl<'a, T, C: Change<T>> Shown<T> for Changed<'a, T, C> {
    ghost shown = { λ changed. C.after changed.by.now changed.value.now };
}

impl<T> Drop for Ghost<T> {
    fn drop(self) {
        let Self { marker: _ } = self;
    }
}
