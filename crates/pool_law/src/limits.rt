//! Whether the measures of a pool are inside their limits.

ghost use Rattle.std.specs.Prelude.{◌≡◌, ◌*◌, ◌^◌, ◌≤◌, ◌↔◌, IsTrue};
ghost use Rattle.size_classes.specs.Sizes.{IsPage, chunk_bytes};
ghost use Rattle.pool_law.specs.Limits.{IsShape, geometry_of};

use crate::run::Shape;

// The most bytes that a chunk may have.
const MOST_CHUNK_BYTES: u64 = 16_777_216;

// The most bytes that all chunks of a pool may have.
const MOST_BYTES: u64 = 536_870_912;

/// Whether a shape is inside the limits.
pub fn is_shape(shape: &Shape) -> bool
    ensures { IsTrue result ↔ IsShape shape.now }
{
    if !is_page(shape.page) {
        return false;
    }
    if shape.order < 3 || shape.order > 11 {
        return false;
    }
    if shape.arenas < 1 || shape.arenas > 8 || shape.chunks < 1 || shape.chunks > 8 {
        return false;
    }
    if shape.handles < 1 || shape.handles > 4096 || shape.lanes < 1 || shape.lanes > 16 {
        return false;
    }
    if shape.interval < 1 || shape.interval > 65536 {
        return false;
    }
    chunk_bytes(shape) <= MOST_CHUNK_BYTES && memory_of(shape) <= MOST_BYTES
}

// Whether a page may have so many bytes.
fn is_page(bytes: u32) -> bool
    ensures { IsTrue result ↔ IsPage bytes }
{
    bytes == 4096 || bytes == 8192 || bytes == 16384 || bytes == 32768
}

// The bytes of a chunk.
fn chunk_bytes(shape: &Shape) -> u64
    requires order { shape.now.order ≤ 11 }
    requires page { shape.now.page ≤ 2 ^ 15 }
    ensures bytes { result ≡ chunk_bytes (geometry_of shape.now) }
    ensures within { result ≤ 2 ^ 26 }
{
    u64::from(shape.page) * 2u64.pow(shape.order)
}

// The bytes of all chunks of all arenas.
fn memory_of(shape: &Shape) -> u64
    requires order { shape.now.order ≤ 11 }
    requires page { shape.now.page ≤ 2 ^ 15 }
    requires arenas { shape.now.arenas ≤ 8 }
    requires chunks { shape.now.chunks ≤ 8 }
    ensures { result
        ≡ shape.now.arenas * (shape.now.chunks * chunk_bytes (geometry_of shape.now)) }
{
    u64::from(shape.arenas) * (u64::from(shape.chunks) * chunk_bytes(shape))
}
