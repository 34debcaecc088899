//! The mails of a pool whose threads work at once.

ghost use Rattle.std.specs.Prelude.{◌≡◌, IfErr};

use crate::name::PoolName;
use crate::parcel::Parcel;
use crate::thread::PoolThread;
use crossbeam_queue::SegQueue;
use shared_pool::Posted;
use std::alloc::{AllocError, Global};
use std::marker::{Model, PhantomData};
use std::sync::Wait;

// A parcel in a mail. One that is dropped there is left behind.
#[derive(Drop)]
pub(crate) struct InMail<B: PoolName> {
    posted: Posted,
    of: PhantomData<B>,
}

impl<B: PoolName> Model for InMail<B> {
    ghost use Rattle.std.specs.Prelude.{IfSome};
    ghost use Rattle.pool_table.specs.declared.views.Letter.{Letter};
    ghost use Rattle.pool_member.specs.Windows.{IsParcelOf};

    ghost Value = { Letter };

    ghost view = { λ p. p.posted.letter };

    ghost invariant = { λ p. IfSome B.pool (λ pool. IsParcelOf pool p.posted) };
}

/// Parcels on their way between the threads of a pool: a mail for each thread, first in, first out.
#[derive(Drop)]
pub struct Mails<B: PoolName> {
    by_thread: Vec<SegQueue<InMail<B>>>,
}

impl<B: PoolName> Mails<B> {
    // Empty mails of so many threads.
    pub(crate) fn new(alloc: Global, threads: u32) -> Result<Mails<B>, AllocError> {
        let mut by_thread = Vec::with_capacity(alloc, threads as usize)?;
        for _thread in 0..threads {
            by_thread.push(SegQueue::new(alloc)?)?;
        }
        Ok(Mails { by_thread })
    }

    /// Puts a parcel into the mail of the thread that it is for. It comes back for want of memory,
    /// and where there is no such thread, for which none is made.
    pub fn send<R: Wait>(&self, rt: &R, parcel: Parcel<B>) -> Result<(), Parcel<B>>
        ensures { IfErr result (λ back. back ≡ parcel) }
    {
        let Some(mail) = self.by_thread.get(parcel.to() as usize) else {
            return Err(parcel);
        };
        let Parcel { posted, of } = parcel;
        match mail.push(rt, InMail { posted, of }) {
            Ok(()) => Ok(()),
            Err(InMail { posted, of }) => Err(Parcel { posted, of }),
        }
    }

    /// Takes the next parcel out of a thread's mail, if one is there.
    pub fn next<R: Wait>(&self, rt: &R, me: &PoolThread<B>) -> Option<Parcel<B>> {
        let mail = self.by_thread.get(me.number() as usize)?;
        let InMail { posted, of } = mail.pop(rt)?;
        Some(Parcel { posted, of })
    }
}
