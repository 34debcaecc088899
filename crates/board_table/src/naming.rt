//! A value that contracts alone see.

ghost use Rattle.std.specs.Prelude.{◌≡◌, IfOk};
ghost use Rattle.board_table.specs.Names.{named};

use atomic_table::{Play, Seat, Table, TableRule};
use std::alloc::{AllocError, Global};
use std::marker::{Brand, PhantomData};

/// Names a value, of which it has no bytes.
#[derive(Drop)]
pub struct Name<T> {
    pub(crate) seat: Seat<(), Option<T>>,
}

/// Which value a name names. `Brand` names any: who calls by it says which.
pub trait Naming<T> {
    ghost use Rattle.std.specs.Prelude.{Option};

    ghost value: { Option T };
}

impl<T> Naming<T> for Brand {
    ghost use Rattle.std.specs.Prelude.{None};

    ghost value = { None };
}

// The first view is the value.
struct Knows<N> {
    of: PhantomData<N>,
}

impl<T, N: Naming<T>> TableRule<(), Option<T>, ()> for Knows<N> {
    ghost use Rattle.std.specs.Prelude.{⊤};

    ghost holds = { λ key s. ⊤ };

    ghost first = { λ key. N.value };
}

impl<T> Name<T> {
    /// The name of the value that the type has.
    pub fn new<N: Naming<T>>(alloc: Global) -> Result<Name<T>, AllocError>
        ensures { IfOk result (λ name. named name ≡ N.value) }
    {
        let (_table, seat): (
            Table<(), Option<T>, (), Knows<N>, Global>,
            Seat<(), Option<T>>,
        ) = Table::of_words(alloc, &[], &())?;
        Ok(Name { seat })
    }
}
