//! The buffers that a thread has, and what their bytes must be.

use buffer_pool::{Buffer, PoolName};
use std::alloc::{AllocError, AllocFailed, Global};

/// What is known of a buffer.
#[derive(Drop)]
pub struct Known {
    /// Its bytes, as they must be.
    pub bytes: Vec<u8>,
    /// Whether no other buffer stands for them. Where others do, they are only read.
    pub alone: bool,
    /// Whether they are all bytes of its allocation.
    pub whole: bool,
}

impl Known {
    /// What is known of a new buffer of so many bytes: they are 0.
    pub fn fresh(alloc: Global, len: u32) -> Result<Known, AllocError> {
        Ok(Known {
            bytes: vec![in alloc; 0u8; len as usize]?,
            alone: true,
            whole: true,
        })
    }

    /// What is known of another buffer on so many of the bytes, from a place on.
    pub fn part(&self, alloc: Global, start: u32, len: u32) -> Result<Known, AllocError> {
        let start = start as usize;
        let bytes = self.bytes.get(start..start + len as usize);
        Ok(Known {
            bytes: bytes.unwrap_or(&[]).to_vec(alloc)?,
            alone: false,
            whole: self.whole && len as usize == self.bytes.len(),
        })
    }

    /// Lays these bytes over those from a place on.
    pub fn lay(&mut self, start: u32, bytes: &[u8]) {
        let start = start as usize;
        let end = start.saturating_add(bytes.len());
        if let Some(over) = self.bytes.as_mut_slice().get_mut(start..end) {
            lay(over, bytes);
        }
    }

    /// Whether these bytes are there, from a place on.
    pub fn has(&self, start: u32, bytes: &[u8]) -> bool {
        let start = start as usize;
        let end = start.saturating_add(bytes.len());
        self.bytes.get(start..end) == Some(bytes)
    }
}

/// Lays bytes over others.
pub fn lay(over: &mut [u8], bytes: &[u8]) {
    for (place, byte) in over.iter_mut().zip(bytes) {
        *place = *byte;
    }
}

/// A buffer, and what is known of it.
pub struct Held<B: PoolName> {
    pub buffer: Buffer<B>,
    pub known: Known,
}

/// The list has this one too. For want of memory it is left.
pub fn keep<B: PoolName>(held: &mut Vec<Held<B>>, one: Held<B>) {
    if let Err(AllocFailed { value }) = held.push(one) {
        leave(value);
    }
}

/// Leaves all that are in the list.
pub fn leave_all<B: PoolName>(mut held: Vec<Held<B>>) {
    for _left in 0..held.len() {
        if let Some(one) = held.pop() {
            leave(one);
        }
    }
    held.destroy_empty();
}

fn leave<B: PoolName>(one: Held<B>) {
    let Held { buffer, known: _ } = one;
    buffer.leave();
}
