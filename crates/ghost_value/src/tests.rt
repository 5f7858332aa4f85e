ghost use Rattle.std.specs.Prelude.{◌≡◌, ◌+◌, ◌<◌, ◌∷◌, [], length};

use crate::{Change, Ghost, Shown};
use std::marker::Model;
use std::mem::size_of;

/// A list of numbers, for contracts alone.
#[derive(Drop)]
struct Numbers;

impl Model for Numbers {
    ghost use Rattle.std.specs.Prelude.{ℕ, List, []};

    ghost Value = { List ℕ };

    ghost view = { λ _. [] };
}

#[derive(Drop)]
struct NoNumbers;

impl Shown<Numbers> for NoNumbers {
    ghost shown = { λ _. [] };
}

#[derive(Drop)]
struct Noted(u32);

impl Change<Numbers> for Noted {
    ghost after = { λ noted numbers. noted.0 ∷ numbers };
}

/// A count of the numbers that it was given. Contracts see the numbers.
#[derive(Drop)]
struct Tally {
    count: u64,
    given: Ghost<Numbers>,
}

impl Model for Tally {
    ghost use Rattle.std.specs.Prelude.{◌≡◌, ℕ, List, length};

    ghost Value = { List ℕ };

    ghost view = { λ tally. tally.given };

    ghost invariant = { λ tally. tally.count ≡ length tally.given };
}

impl Tally {
    fn new() -> Tally
        ensures { result ≡ [] }
    {
        Tally {
            count: 0,
            given: Ghost::of(&NoNumbers),
        }
    }

    fn note(&mut self, x: u32)
        requires { length self.old + 1 < 100 }
        ensures { self.new ≡ x ∷ self.old }
    {
        self.count += 1;
        self.given.change(&Noted(x));
    }

    fn copied(&self) -> Tally
        ensures { result ≡ self.now }
    {
        Tally {
            count: self.count,
            given: Ghost::of(&self.given),
        }
    }

    fn count(&self) -> u64
        ensures { result ≡ length self.now }
    {
        self.count
    }
}

#[test]
fn a_tally_counts_what_it_was_given(rt: HostRuntime) {
    let mut tally = Tally::new();
    tally.note(7);
    tally.note(9);
    assert!(rt; tally.count() == 2, "two numbers");
    assert!(rt; tally.copied().count() == 2, "the same numbers");
}

#[test]
fn a_ghost_value_has_no_bytes(rt: HostRuntime) {
    assert!(rt; size_of::<Ghost<Numbers>>() == 0, "no bytes");
    assert!(rt; size_of::<Tally>() == size_of::<u64>(), "the count alone");
}
