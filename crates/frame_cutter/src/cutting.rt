//! A cutter with its source.

ghost use Rattle.std.specs.Prelude.{◌≡◌};
ghost use Rattle.frame_hash.specs.declared.shared.Shared.{Shared};
ghost use Rattle.frame_cutter.specs.declared.cutter.Cutter.{Cutter};
ghost use Rattle.frame_cutter.specs.declared.stage.Stage.{Stage};
ghost use Rattle.frame_cutter.specs.Standing.{CutterCame};

use crate::cutter::Cutter;
use crate::filling::fill;
use crate::stage::Stage;
use frame_hash::Shared;
use std::alloc::AllocError;
use std::sync::Wait;
use text_ends::Source;
use work_table::{Machine, Stepped};

/// A cutter that reads from a source.
pub struct Cutting<'s, S: Source> {
    pub source: &'s mut S,
    pub cutter: &'s mut Cutter,
}

impl<'a, 's, S: Source> Machine<Shared<'a>> for Cutting<'s, S> {
    ghost use Rattle.std.specs.Prelude.{◌≡◌};
    ghost use Rattle.frame_cutter.specs.declared.stage.Stage.{Stage};
    ghost use Rattle.frame_cutter.specs.Standing.{CuttingCame};

    ghost comes = { CuttingCame S.left S.faults };

    ghost finished = { λ c. c.cutter.now.stage ≡ Stage.Over };

    fn step<R: Wait>(&mut self, rt: &R, shared: &Shared<'a>) -> Result<Stepped, AllocError> {
        if self.cutter.stage == Stage::Filling {
            return fill(rt, shared, self.source, self.cutter);
        }
        self.cutter.go_on(rt, shared)
    }
}
