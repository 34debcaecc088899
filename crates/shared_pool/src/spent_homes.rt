//! How what a pool has is left where it is.

use crate::home::Home;
use crate::root_place::{Held, RootPlace};

/// Spends home values. Their memory stays taken until the program ends.
pub(crate) fn spend_all(mut homes: Vec<Home>) {
    while let Some(home) = homes.pop() {
        spend(home);
    }
    homes.destroy_empty();
}

/// Spends a home value. Its memory stays taken until the program ends.
pub(crate) fn spend(home: Home) {
    match home {
        Home::Arena(arena) => Box::into_inner(arena).leave(),
        Home::Cache(cache) => Box::into_inner(cache).leave(),
        Home::Bin(bin) => Box::into_inner(bin).leave(),
        Home::Root(place) => spend_place(Box::into_inner(place)),
    }
}

/// Spends a root place with what it holds.
pub(crate) fn spend_place(place: RootPlace) {
    let RootPlace {
        generation: _,
        last: _,
        present,
    } = place;
    match present {
        Some(Held { piece, handle }) => {
            piece.leave();
            handle.leave();
        }
        None => (),
    }
}
