//! The gate that stops no lane.
ghost use Rattle.std.specs.Prelude.{false};

use lane_core::{Gate, Pass};

/// A gate that always answers `Go`.
#[derive(Clone, Copy)]
pub struct OpenGate;

impl Gate for OpenGate {
    ghost stops = { λ g lane line. false };

    fn pass(&self, _lane: u32, _line: u32) -> Pass {
        Pass::Go
    }
}
