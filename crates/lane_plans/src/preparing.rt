//! The accesses to a root's bytes that commands ask for, prepared before their first note.

ghost use Rattle.std.specs.Prelude.{length, IfOk, IfErr, IfSome, IfNone, false};
ghost use Rattle.pool_law.specs.declared.command.Command.{Command};
ghost use Rattle.pool_law.specs.LaneStates.{LaneState};
ghost use Rattle.pool_law.specs.Views.{in_range, can_read, can_write, after_read, after_write};
ghost use Rattle.lane_context.specs.Accesses.{IsState, IsRefusedRange, IsPrepared, IsAccess};
ghost use Rattle.lane_plans.specs.Reaching.{IsReached, BindsBelow, IsMadeSet, IsMadeGet};
ghost use Rattle.lane_context.specs.Works.{IsUnplanned};

use lane_context::{Access, Names, Reach, Refusal, counted};
use lane_stages::OwnCounts;
use pool_law::Command;
use std::alloc::{AllocError, Global};

/// What a command would access now, if it is one that accesses bytes.
pub fn prepare(
    alloc: Global,
    names: &Names,
    counts: &OwnCounts,
    command: &Command,
) -> Result<Option<Access>, AllocError>
    requires plain { IsUnplanned names.now command.now }
    ensures access { IfOk result (λ made. IfSome made (λ access. (s : LaneState) →
        IsState s names.now counts.now →
        IsPrepared names.now counts.now command.now access s)) }
    ensures within { IfOk result (λ made. IfSome made (BindsBelow (length names.now))) }
    ensures other { IfOk result (λ made. IfNone made (IsAccess command.now → ⊥)) }
    ensures none { IfOk result (λ made. IfSome made (λ access. IsAccess command.now)) }
{
    let access = match command {
        Command::Set {
            name,
            at,
            bytes,
            tries,
        } => {
            let len = bytes.items().len();
            set(
                alloc,
                reach_at(names, counts, *name, *at, len, *tries),
                bytes.items(),
            )?
        }
        Command::Get {
            name,
            at,
            len,
            tries,
        } => get(
            alloc,
            reach_at(names, counts, *name, *at, *len as usize, *tries),
            *len,
        )?,
        Command::Write { name, bytes } => {
            let len = bytes.items().len();
            set(alloc, reach_write(names, counts, *name, len), bytes.items())?
        }
        Command::Read { name, len } => get(alloc, reach_read(names, counts, *name, *len), *len)?,
        _ => return Ok(None),
    };
    Ok(Some(access))
}

fn set(alloc: Global, reach: Result<Reach, Refusal>, bytes: &[u8]) -> Result<Access, AllocError>
    ensures { IfOk result (IsMadeSet reach bytes.now) }
{
    match reach {
        Ok(reach) => Ok(Access::Set(reach, Vec::from_slice(alloc, bytes)?)),
        Err(refusal) => Ok(Access::Refused(refusal)),
    }
}

fn get(alloc: Global, reach: Result<Reach, Refusal>, len: u32) -> Result<Access, AllocError>
    ensures { IfOk result (IsMadeGet reach len) }
{
    match reach {
        Ok(reach) => {
            let note = Vec::from_elem(alloc, 0, len as usize)?;
            let reply = Vec::from_elem(alloc, 0, len as usize)?;
            Ok(Access::Get(reach, note, reply))
        }
        Err(refusal) => Ok(Access::Refused(refusal)),
    }
}

// So many bytes of the view of a name, from an index on.
fn reach_at(
    names: &Names,
    counts: &OwnCounts,
    name: u32,
    at: u32,
    len: usize,
    tries: bool,
) -> Result<Reach, Refusal>
    ensures ok { IfOk result (IsReached names.now counts.now name tries
        (λ v. in_range v at len) (λ v. at) (λ v. v)) }
    ensures refused { IfErr result
        (IsRefusedRange names.now counts.now name (λ v. in_range v at len)) }
{
    let view = counted(names, counts, name)?;
    if len > view.at.len as usize {
        return Err(Refusal::Range);
    }
    let Ok((offset, _)) = view.range(at, len as u32) else {
        return Err(Refusal::Range);
    };
    Ok(Reach {
        root: view.at.root,
        offset,
        tries,
        name,
        after: view.duplicate(),
    })
}

// So many bytes of the view of a name, from its writer on.
fn reach_write(names: &Names, counts: &OwnCounts, name: u32, len: usize) -> Result<Reach, Refusal>
    ensures ok { IfOk result (IsReached names.now counts.now name false
        (λ v. can_write v len) (λ v. v.writer) (λ v. after_write v len)) }
    ensures refused { IfErr result
        (IsRefusedRange names.now counts.now name (λ v. can_write v len)) }
{
    let view = counted(names, counts, name)?;
    if len > view.at.len as usize {
        return Err(Refusal::Range);
    }
    let mut after = view.duplicate();
    let Ok((offset, _)) = after.write_range(len as u32) else {
        return Err(Refusal::Range);
    };
    Ok(Reach {
        root: after.at.root,
        offset,
        tries: false,
        name,
        after,
    })
}

// So many bytes of the view of a name, from its reader on.
fn reach_read(names: &Names, counts: &OwnCounts, name: u32, len: u32) -> Result<Reach, Refusal>
    ensures ok { IfOk result (IsReached names.now counts.now name false
        (λ v. can_read v len) (λ v. v.reader) (λ v. after_read v len)) }
    ensures refused { IfErr result
        (IsRefusedRange names.now counts.now name (λ v. can_read v len)) }
{
    let view = counted(names, counts, name)?;
    let mut after = view.duplicate();
    let Ok((offset, _)) = after.read_range(len) else {
        return Err(Refusal::Range);
    };
    Ok(Reach {
        root: after.at.root,
        offset,
        tries: false,
        name,
        after,
    })
}
