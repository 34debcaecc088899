//! How many notes each command of a lane made, as far as the notes tell: of lanes that no law reads.

use crate::bound::{Bound, Standing};
use crate::cutter::Cutter;
use crate::known::{RootKey, key_of};
use pool_law::{Command, CommandList, Did, LaneLog, Note, Reply};
use std::alloc::{AllocError, Global};

// The most parts of a composite that isn't copied to a root of its own.
const MOST_PARTS: usize = 16;

/// How many notes each command of each lane made, as far as the notes tell. Where no law reads a lane, its
/// numbers may be any.
pub fn counts_told(
    alloc: Global,
    lanes: &[CommandList],
    replies: &[Vec<Reply>],
    logs: &[LaneLog],
) -> Result<Vec<Vec<usize>>, AllocError> {
    let mut all = Vec::new(alloc);
    for lane in 0..logs.len().min(lanes.len()).min(replies.len()) {
        let notes = logs[lane].notes.items();
        let counts = lane_counts(alloc, lanes[lane].items(), &replies[lane], notes)?;
        all.push(counts)?;
    }
    Ok(all)
}

// The same of one lane.
fn lane_counts(
    alloc: Global,
    commands: &[Command],
    replies: &[Reply],
    notes: &[Note],
) -> Result<Vec<usize>, AllocError> {
    let mut cutter = Cutter {
        notes,
        at: 0,
        standing: Standing::new(alloc),
    };
    let mut counts = Vec::new(alloc);
    for reply in replies {
        let from = cutter.at;
        if let Some(command) = commands.get(counts.len()) {
            cutter.answer(command, reply)?;
            cutter.sweep()?;
        }
        counts.push(cutter.at.saturating_sub(from))?;
    }
    Ok(counts)
}

impl Cutter<'_> {
    // A name is bound to a composite of these roots: of one of its own, where they are too many.
    fn compose(&mut self, name: u32, roots: Vec<RootKey>) -> Result<(), AllocError> {
        if roots.len() <= MOST_PARTS {
            return self.standing.bind(name, Bound::Whole(roots));
        }
        self.pass_to_last()?;
        self.move_bytes()?;
        self.release_all(&roots)?;
        self.standing.bind_moved(name)
    }

    // The next notes are those of a command with this reply.
    fn answer(&mut self, command: &Command, reply: &Reply) -> Result<(), AllocError> {
        match command {
            Command::Set { name, bytes, .. } | Command::Write { name, bytes } => {
                self.access(*name, bytes.items().len(), reply)
            }
            Command::Get { name, len, .. } | Command::Read { name, len } => {
                self.access(*name, *len as usize, reply)
            }
            Command::Retain { name } | Command::Refcnt { name } => self.count(*name, reply),
            Command::Release { name } => self.let_go(*name, reply),
            Command::Alloc { name, .. } => self.allot(*name, reply),
            Command::Compose { fresh, names } => self.join(*fresh, names.items(), reply),
            Command::Add { whole, name } => self.join_one(*whole, *name, reply),
            Command::Capacity { .. } => self.grow(reply),
            Command::Send { .. } => self.pass(),
            Command::Recv { fresh, .. } => self.receive(*fresh, reply),
            _ => self.answer_view(command, reply),
        }
    }

    // The other commands, which are done on views alone.
    fn answer_view(&mut self, command: &Command, reply: &Reply) -> Result<(), AllocError> {
        let Reply::Ok = reply else {
            return Ok(());
        };
        match command {
            Command::Slice {
                fresh,
                name,
                retained,
                ..
            } => {
                if *retained {
                    self.pass()?;
                }
                self.standing.bind_as(*fresh, *name)
            }
            Command::Dup { fresh, name } => self.standing.bind_as(*fresh, *name),
            Command::Touch { .. } => self.pass(),
            _ => Ok(()),
        }
    }

    // Bytes are written or read.
    fn access(&mut self, name: u32, len: usize, reply: &Reply) -> Result<(), AllocError> {
        match reply {
            Reply::Ok | Reply::OkBytes(_) => self.bytes(name, len),
            Reply::Busy(_) => self.pass(),
            _ => Ok(()),
        }
    }

    // A count is added or looked up.
    fn count(&mut self, name: u32, reply: &Reply) -> Result<(), AllocError> {
        match reply {
            Reply::Ok | Reply::OkNumber(_) if self.standing.root_of(name).is_some() => self.pass(),
            _ => Ok(()),
        }
    }

    // A count is taken away.
    fn let_go(&mut self, name: u32, reply: &Reply) -> Result<(), AllocError> {
        let is_view = self.standing.root_of(name).is_some();
        match reply {
            Reply::Kept | Reply::Freed if is_view => self.release(),
            Reply::Freed => {
                let roots = self.standing.taken_apart(name);
                self.release_all(&roots)
            }
            _ => Ok(()),
        }
    }

    // A root is allotted.
    fn allot(&mut self, name: u32, reply: &Reply) -> Result<(), AllocError> {
        match reply {
            Reply::OkPlace { .. } => {
                self.pass_to_last()?;
                let root = self.standing.born();
                self.standing.bind(name, Bound::View(root))
            }
            Reply::Full | Reply::Handles => self.pass_to_last(),
            _ => Ok(()),
        }
    }

    // A root is asked for capacity.
    fn grow(&mut self, reply: &Reply) -> Result<(), AllocError> {
        match reply {
            Reply::OkNumber(_) | Reply::Full => self.pass_growth(),
            _ => Ok(()),
        }
    }

    // A composite is made of views.
    fn join(&mut self, fresh: u32, names: &[u32], reply: &Reply) -> Result<(), AllocError> {
        match reply {
            Reply::OkNumber(_) => {
                let roots = self.standing.roots_of(names)?;
                self.compose(fresh, roots)
            }
            Reply::Full | Reply::Handles => self.pass_to_last(),
            _ => Ok(()),
        }
    }

    // A view is put behind the parts of a composite.
    fn join_one(&mut self, whole: u32, name: u32, reply: &Reply) -> Result<(), AllocError> {
        match reply {
            Reply::OkNumber(_) => {
                let mut roots = self.standing.taken_apart(whole);
                if let Some(root) = self.standing.root_of(name) {
                    roots.push(root)?;
                }
                self.compose(whole, roots)
            }
            Reply::Full | Reply::Handles => self.pass_to_last(),
            _ => Ok(()),
        }
    }

    // A parcel is fetched.
    fn receive(&mut self, fresh: u32, reply: &Reply) -> Result<(), AllocError> {
        let (Reply::Ok | Reply::Nothing) = reply else {
            return Ok(());
        };
        let root = match self.notes.get(self.at) {
            Some(
                Note::At {
                    did: Did::Fetch(parcel),
                    ..
                },
            ) => parcel.view.map(|view| key_of(&view.root)),
            _ => None,
        };
        self.pass()?;
        match root {
            Some(root) => self.standing.bind(fresh, Bound::View(root)),
            None => Ok(()),
        }
    }
}
