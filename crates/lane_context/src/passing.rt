//! How a lane hands parcels over: it posts what a name has, and binds what it fetches.

ghost use Rattle.std.specs.Prelude.{◌-◌, ◌<◌, length, Some, None, IfSome, vec_capacity};
ghost use Rattle.pool_law.specs.declared.command.Command.{Command};
ghost use Rattle.seat_work.specs.Hands.{empty_hand};
ghost use Rattle.pool_law.specs.Views.{IsView};
ghost use Rattle.shared_pool.specs.Knowing.{ReachesKnown};
ghost use Rattle.shared_pool.specs.SeatViews.{view_of};
ghost use Rattle.lane_stages.specs.Counting.{counted};
ghost use Rattle.lane_context.specs.ContextSteps.{HasPosted, left_to_post, MayTurn, Turns};
ghost use Rattle.lane_context.specs.declared.context.Turn.{Turn};
ghost use Rattle.shared_pool.specs.declared.pool.SharedPool.{SharedPool};
ghost use Rattle.lane_context.specs.Contexts.{IsContext, FitsContext, HasRoomFor, left_for, PassesOver};

use crate::access::counted;
use crate::bound::Bound;
use crate::context::{Context, Turn};
use byte_view::View;
use lane_stages::{lane_of, note_at};
use pool_law::{Command, Did, Object, Parcel, Reply};
use shared_pool::{Fetched, SharedPool};
use std::sync::Wait;

impl Context {
    pub(crate) fn send<W: Wait>(&mut self, rt: &W, pool: &SharedPool, name: u32, lane: u32) -> Turn
        requires may { MayTurn pool.now (left_for self.old.composes (Command.Send name lane))
            self.old }
        requires lane { lane < self.old.shape.lanes }
        ensures { Turns pool.now self.old self.new (Command.Send name lane) result }
    {
        match counted(&self.names, &self.counts, name) {
            Ok(view) => {
                let at = view.at;
                self.post(rt, pool, lane, Parcel { view: Some(at) });
                self.counts.take(at.root);
                self.answer(Reply::Ok)
            }
            Err(refusal) => {
                self.post(rt, pool, lane, Parcel { view: None });
                self.refuse(refusal)
            }
        }
    }

    /// Answers a command of a lane that was stopped. A send posts an empty parcel, and nothing else
    /// is done.
    pub fn pass_over<W: Wait>(&mut self, rt: &W, pool: &SharedPool, command: &Command) -> Turn
        requires context { IsContext pool.now empty_hand self.old }
        requires room { HasRoomFor pool.now self.old (left_for self.old.composes command.now) }
        requires replies { length self.old.replies.items < vec_capacity self.old.replies }
        requires fits { FitsContext self.old command.now }
        ensures { PassesOver pool.now self.old self.new command.now result }
    {
        if let Command::Send { name: _, lane } = command {
            self.post(rt, pool, *lane, Parcel { view: None });
        }
        self.answer(Reply::Stopped)
    }

    // Posts a parcel and notes that.
    fn post<W: Wait>(&mut self, rt: &W, pool: &SharedPool, lane: u32, sent: Parcel)
        requires context { IsContext pool.now empty_hand self.old }
        requires room { HasRoomFor pool.now self.old (left_to_post lane) }
        requires lane { lane < self.old.shape.lanes }
        requires view { IfSome sent.view IsView }
        requires known { IfSome sent.view (ReachesKnown (view_of self.old.seat)) }
        requires counts { IfSome sent.view (λ v. 0 < counted self.old.counts v.root) }
        ensures { HasPosted pool.now self.old self.new lane sent }
    {
        let mail = Object::Mail {
            from: lane_of(&self.seat),
            to: lane,
        };
        let number = pool.post(rt, &mut self.seat, lane, sent);
        self.note(note_at(mail, number, Did::Post(sent)));
    }

    pub(crate) fn receive<W: Wait>(
        &mut self,
        rt: &W,
        pool: &SharedPool,
        fresh: u32,
        lane: u32,
    ) -> Turn
        requires may { MayTurn pool.now (left_for self.old.composes (Command.Recv fresh lane))
            self.old }
        requires name { fresh < length self.old.names }
        requires lane { lane < self.old.shape.lanes }
        ensures { Turns pool.now self.old self.new (Command.Recv fresh lane) result }
    {
        let mail = Object::Mail {
            from: lane,
            to: lane_of(&self.seat),
        };
        match pool.fetch(rt, &mut self.seat, lane) {
            Fetched::Got(number, parcel) => {
                self.note(note_at(mail, number, Did::Fetch(parcel)));
                match parcel.view {
                    Some(view) => {
                        self.counts.add(view.root);
                        self.names.bind(fresh, Bound::Plain(View { at: view }));
                        self.answer(Reply::Ok)
                    }
                    None => self.answer(Reply::Nothing),
                }
            }
            Fetched::Empty => Turn::Waiting { from: lane },
        }
    }
}
