//! What a lane works with: its seat, its names, its counts, and the log that it writes.

ghost use Rattle.std.specs.Prelude.{◌≡◌, ◌<◌, [], ◌∷◌, length, vec_capacity};
ghost use Rattle.lane_context.specs.Accesses.{reply_for};
ghost use Rattle.lane_context.specs.ContextSteps.{CanAnswer, Concludes, HasNoted, HasReplied};
ghost use Rattle.lane_context.specs.declared.context.Turn.{Turn};
ghost use Rattle.lane_context.specs.declared.context.Stage.{Stage};

use crate::access::Refusal;
use crate::composed::{Composed, Marks};
use crate::names::Names;
use crate::work::Consolidation;
use byte_view::View;
use lane_stages::{
    Allotting, Copying, Crossing, Draining, Ending, Growing, OwnCounts, Releasing, write_note,
};
use leak_records::Sampler;
use pool_law::{Answered, Held, Note, Part, Reply, Shape};
use shared_pool::PoolSeat;
use size_classes::SizeClasses;

/// What a lane works with. Its log has room for all that the lane's commands may note.
pub struct Context {
    /// The shape of the pool.
    pub shape: Shape,
    /// The size classes of its chunks.
    pub classes: SizeClasses,
    /// The lane's seat at the pool.
    pub seat: PoolSeat,
    /// The lane's commands make composites.
    pub composes: bool,
    /// What its names are bound to.
    pub names: Names,
    /// How often it counts each root.
    pub counts: OwnCounts,
    /// It tells which of the roots that the lane makes are sampled.
    pub sampler: Sampler,
    /// What each command was answered, and with how many notes.
    pub replies: Vec<Answered>,
    /// What was noted, in order.
    pub notes: Vec<Note>,
    /// How many notes stood before the command that is under way.
    pub begun: usize,
    /// How many allocations asked a cache since the last sweep.
    pub asked: u32,
}

/// A lane sweeps its caches once so many allocations asked one.
pub const SWEEP_PERIOD: u32 = 8192;

/// What a command has still to do once it has begun.
pub enum Stage {
    /// The next command is to be begun.
    Ready,
    /// A root is allotted, to which the name is then bound.
    Allotting {
        name: u32,
        size: u32,
        class: u32,
        stage: Allotting,
    },
    /// A root that has no count left ends.
    Ending(Ending),
    /// The caches are swept, and then the command has this reply.
    Sweeping {
        reply: Reply,
        stage: Draining,
    },
    /// All commands are answered, and the caches are closed.
    Closing(Draining),
    /// Bytes of a composite are set or got; then it has these marks.
    Crossing {
        name: u32,
        marks: Option<Marks>,
        stage: Crossing,
    },
    /// A composite ends: its parts are released.
    Parting {
        name: u32,
        stage: Releasing,
    },
    /// A root is allotted for the bytes of a composite that has too many parts.
    Consolidating {
        plan: Consolidation,
        stage: Allotting,
    },
    /// They are copied there. Behind that these parts are released.
    Copying {
        name: u32,
        whole: Box<Composed>,
        parts: Vec<Part>,
        stage: Copying,
    },
    /// The parts that were copied are released; then the name is bound to the composite.
    Replacing {
        name: u32,
        whole: Box<Composed>,
        stage: Releasing,
    },
    /// The root of this view, to which the name is bound, is asked for more capacity.
    Growing {
        name: u32,
        view: View,
        size: u32,
        class: u32,
        stage: Growing,
    },
}

/// What a turn of a lane came to. The stage is what is to be done next.
pub enum Turn {
    /// Something was noted or answered.
    Went(Stage),
    /// Another seat was there, nothing was noted, and the same is to be tried again.
    Pending(Held, Stage),
    /// No parcel of this lane is there to be fetched; nothing was noted.
    Waiting { from: u32 },
}

// A command that waits to be tried again.
pub(crate) fn waits(held: Held) -> Turn
    ensures { result ≡ Turn.Pending held Stage.Ready }
{
    Turn::Pending(held, Stage::Ready)
}

fn reply_of(refusal: Refusal) -> Reply
    ensures { result ≡ reply_for refusal }
{
    match refusal {
        Refusal::Unbound => Reply::Unbound,
        Refusal::Taken => Reply::Taken,
        Refusal::Composite => Reply::Composite,
        Refusal::Illegal => Reply::Illegal,
        Refusal::Range => Reply::Range,
        Refusal::Plain => Reply::Plain,
        Refusal::TooLarge => Reply::TooLarge,
    }
}

impl Context {
    // Writes a note.
    pub(crate) fn note(&mut self, note: Note)
        requires { length self.old.notes.items < vec_capacity self.old.notes }
        ensures { HasNoted self.old self.new (note ∷ []) }
    {
        write_note(&mut self.notes, note);
    }

    // Answers the command that is under way.
    pub(crate) fn answer(&mut self, reply: Reply) -> Turn
        requires { CanAnswer self.old }
        ensures replied { HasReplied self.old self.new reply }
        ensures ready { result ≡ Turn.Went Stage.Ready }
    {
        let notes = (self.notes.len() - self.begun) as u32;
        self.begun = self.notes.len();
        let Ok(()) = self.replies.push(Answered { reply, notes }) else {
            unreachable!()
        };
        Turn::Went(Stage::Ready)
    }

    // Answers the command that is under way, or where a sweep is due begins that.
    pub(crate) fn conclude(&mut self, reply: Reply) -> Turn
        requires { CanAnswer self.old }
        ensures { Concludes self.old self.new reply result }
    {
        if self.asked < SWEEP_PERIOD {
            return self.answer(reply);
        }
        self.asked = 0;
        let stage = Draining::Ask { class: 0 };
        Turn::Went(Stage::Sweeping { reply, stage })
    }

    pub(crate) fn refuse(&mut self, refusal: Refusal) -> Turn
        requires { CanAnswer self.old }
        ensures replied { HasReplied self.old self.new (reply_for refusal) }
        ensures ready { result ≡ Turn.Went Stage.Ready }
    {
        self.answer(reply_of(refusal))
    }

    /// The seat, with what was written lost.
    pub fn into_seat(self) -> PoolSeat
        ensures { result ≡ self.seat }
    {
        let (seat, _replies, _notes) = self.into_log();
        seat
    }

    /// The seat, the replies and the notes.
    pub fn into_log(self) -> (PoolSeat, Vec<Answered>, Vec<Note>)
        ensures { result ≡ (self.seat, self.replies, self.notes) }
    {
        let Context {
            shape: _,
            classes: _,
            seat,
            composes: _,
            names: _,
            counts: _,
            sampler: _,
            replies,
            notes,
            begun: _,
            asked: _,
        } = self;
        (seat, replies, notes)
    }
}
