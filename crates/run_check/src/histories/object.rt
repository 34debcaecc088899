//! The history of one object.

ghost use Rattle.std.specs.Prelude.{◌≡◌, ◌≤◌, ◌^◌, false, MatchResult, IfOk};
ghost use Rattle.pool_law.specs.Limits.{geometry_of};
ghost use Rattle.pool_law.specs.declared.run.Shape.{Shape};
ghost use Rattle.pool_law.specs.Logs.{Logs, has_history};
ghost use Rattle.run_check.specs.ByObject.{AreByObject};
ghost use Rattle.run_check.specs.Fronts.{IsBrokenAt};
ghost use Rattle.run_check.specs.Storing.{IsObjectHistory};

use super::{ObjectHistory, dids_of};
use crate::fronts::{accepted_of, broken_number, told_at};
use crate::mails::mail_broken_at;
use crate::merging::merged;
use crate::object_notes::{ObjectNotes, left_at};
use crate::stands::has_history;
use object_steps::Sizes;
use pool_law::{Object, Shape};
use std::alloc::{AllocError, Global};

// The history of a mail, which has no history, or the first number at which the mail does not hold.
fn object_history_of_mail<'a>(
    alloc: Global,
    lanes: &[ObjectNotes<'a>],
    mail: &Object,
) -> Result<Result<ObjectHistory<'a>, u64>, AllocError>
    requires { has_history mail.now ≡ false }
    ensures { (shape : Shape) → (logs : Logs) → AreByObject lanes.now logs → IfOk result (λ told.
        MatchResult told (IsObjectHistory shape logs mail.now) (IsBrokenAt shape logs mail.now)) }
{
    if let Some(number) = mail_broken_at(alloc, lanes, mail)? {
        return Ok(Err(number));
    }
    Ok(Ok(ObjectHistory {
        dones: Vec::new(alloc),
        told: Vec::new(alloc),
    }))
}

/// The history of an object, or the first number at which its notes are not whole or not accepted, or at
/// which the mail does not hold.
pub(crate) fn object_history_of<'a>(
    alloc: Global,
    shape: &Shape,
    sizes: &Sizes,
    lanes: &[ObjectNotes<'a>],
    object: &Object,
) -> Result<Result<ObjectHistory<'a>, u64>, AllocError>
    requires sizes { sizes.now ≡ geometry_of shape.now }
    requires chunks { shape.now.chunks ≤ 2 ^ 16 }
    requires handles { 1 ≤ shape.now.handles }
    ensures { (logs : Logs) → AreByObject lanes.now logs → IfOk result (λ told.
        MatchResult told (IsObjectHistory shape.now logs object.now)
        (IsBrokenAt shape.now logs object.now)) }
{
    if !has_history(object) {
        return object_history_of_mail(alloc, lanes, object);
    }
    let left = left_at(alloc, lanes, object)?;
    let dones = match merged(alloc, left)? {
        Ok(dones) => dones,
        Err(stop) => {
            let dids = dids_of(alloc, &stop.dones)?;
            let number = broken_number(alloc, shape, sizes, object, &dids, stop.number)?;
            return Ok(Err(number));
        }
    };
    let dids = dids_of(alloc, &dones)?;
    if let Some(told) = told_at(alloc, shape, sizes, object, &dids)? {
        return Ok(Ok(ObjectHistory { dones, told }));
    }
    let accepted = accepted_of(alloc, shape, sizes, object, &dids)?;
    Ok(Err(accepted as u64 + 1))
}
