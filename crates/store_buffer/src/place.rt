ghost use Rattle.std.specs.Prelude.{◌≡◌};

use lf_model::bus::Pending;
use std::marker::Model;

/// A place of a store buffer. Contracts see it as the store that waits in it.
#[derive(Clone, Copy)]
pub struct Place {
    store: Pending,
}

impl Model for Place {
    ghost use Rattle.lf_model.specs.declared.bus.Pending.{Pending};

    ghost Value = { Pending };

    ghost view = { λ place. place.store };

    ghost inverse = { λ store. record { store = store } };
}

impl Place {
    /// The place in which a store waits.
    pub fn of(store: Pending) -> Place
        ensures { result ≡ store }
    {
        Place { store }
    }

    /// The store that waits in the place.
    pub fn store(self) -> Pending
        ensures { result ≡ self }
    {
        self.store
    }
}

/// A place in which no store waits. What it holds is never read.
impl Default for Place {
    fn default() -> Place {
        Place {
            store: Pending {
                value: 0,
                addr: 0,
                k: 0,
                step: 0,
                len: 1,
            },
        }
    }
}
