//! The machine that has nothing to do.
ghost use Rattle.std.specs.Prelude.{⊤};

use crate::machine::{Machine, Stepped};
use std::alloc::AllocError;
use std::sync::Wait;

/// A machine that has finished before its first step.
#[derive(Clone, Copy)]
pub struct Idler;

impl<E> Machine<E> for Idler {
    ghost comes = { λ shared first now. ⊤ };

    ghost finished = { λ idler. ⊤ };

    fn step<R: Wait>(&mut self, _rt: &R, _shared: &E) -> Result<Stepped, AllocError> {
        Ok(Stepped::Finished)
    }
}
