//! What a live root has: its bytes, and what is recorded of it.

ghost use Rattle.std.specs.Prelude.{◌≡◌, ◌+◌, ◌^◌, ◌<◌, ◌≤◌, length};
ghost use Rattle.std.specs.Fn.{FnOnceReturnsAt};
ghost use Rattle.ground.specs.Ground.{with_bytes};
ghost use Rattle.handle_bin.specs.Lending.{with_tracker};
ghost use Rattle.leak_records.specs.Records.{with_access};
ghost use Rattle.pool_law.specs.Roots.{laid_over, bytes_at};

use super::Held;
use pool_law::Access;

impl Held {
    // Lays bytes over those that are there, from an offset on.
    #[inline]
    pub(crate) fn set(&mut self, offset: u32, bytes: &[u8])
        requires { offset + length bytes.now ≤ length self.old.piece.bytes }
        ensures { let laid = laid_over self.old.piece.bytes offset bytes.now in
            self.new ≡ record self.old { piece = with_bytes self.old.piece laid } }
    {
        let at = offset as usize;
        let there = self.piece.bytes_mut();
        there[at..at + bytes.len()].copy_from_slice(bytes);
    }

    // Copies bytes out, from an offset on.
    #[inline]
    pub(crate) fn get(&self, offset: u32, out: &mut [u8])
        requires { offset + length out.old ≤ length self.now.piece.bytes }
        ensures { out.new ≡ bytes_at self.now.piece.bytes offset (length out.old) }
    {
        let at = offset as usize;
        out.copy_from_slice(&self.piece.bytes()[at..at + out.len()]);
    }

    // Calls `f` with bytes, from an offset on.
    pub(crate) fn show<R, F: FnOnce(&[u8]) -> R>(&self, offset: u32, len: u32, f: F) -> R
        requires range { offset + len ≤ length self.now.piece.bytes }
        requires callable { F.IsAlwaysCallable f }
        ensures { FnOnceReturnsAt F.FnOnce f (bytes_at self.now.piece.bytes offset len) result }
    {
        let at = offset as usize;
        f(&self.piece.bytes()[at..at + len as usize])
    }

    // How many bytes these are: no more than the region has, so that the number fits.
    #[inline]
    pub(crate) fn count(&self, bytes: &[u8]) -> u32
        requires { length bytes.now ≤ length self.now.piece.bytes }
        ensures { result ≡ length bytes.now }
    {
        prove!(bytes.len() <= self.piece.len());
        bytes.len() as u32
    }

    // Records an access.
    #[inline(always)]
    pub(crate) fn record(&mut self, access: Access)
        requires { self.old.handle.tracker.dropped < 2 ^ 63 }
        ensures { let tracker = with_access self.old.handle.tracker access in
            self.new ≡ record self.old { handle = with_tracker self.old.handle tracker } }
    {
        self.handle.tracker().add(access);
    }
}
