//! What the words and a trace ask of the pool, and the pool that this gives.
ghost use Rattle.std.specs.Prelude.{◌≡◌, ◌≤◌, true};
ghost use Rattle.trace_text.specs.Options.{AreOptions};
ghost use Rattle.run_words.specs.Pools.{AreSound, all_chunk_bytes, bytes_of_chunk, is_within_memory, or_default, over, shape_of};
ghost use Rattle.run_words.specs.Settings.{row_of};

use crate::settings::Setting;
use pool_law::{Level, Options, Shape};
use size_classes::DEFAULT_PAGE;

// The most bytes of a chunk.
const CHUNK_MOST: u64 = 16_777_216;

// The most bytes that all chunks of all arenas may have together.
const ALL_CHUNKS_MOST: u64 = 536_870_912;

/// The number that is asked for, or the option's default.
pub fn or_default(setting: Setting, asked: Option<u32>) -> u32
    requires { (row_of setting).default ≤ 65536 }
    ensures { result ≡ or_default setting asked }
{
    asked.unwrap_or(setting.row().default() as u32)
}

/// What the words ask for, and where they ask for nothing, what the trace asks for.
pub fn over(words: &Options, trace: &Options) -> Options
    requires words { AreOptions words.now }
    requires trace { AreOptions trace.now }
    ensures options { result ≡ over words.now trace.now }
    ensures within { AreOptions result }
{
    Options {
        page: words.page.or(trace.page),
        order: words.order.or(trace.order),
        arenas: words.arenas.or(trace.arenas),
        chunks: words.chunks.or(trace.chunks),
        handles: words.handles.or(trace.handles),
        level: words.level.or(trace.level),
        interval: words.interval.or(trace.interval),
    }
}

/// The shape of a run of so many lanes; what isn't asked for has its default.
pub fn shape(options: &Options, lanes: u32) -> Shape
    ensures { result ≡ shape_of options.now lanes }
{
    Shape {
        page: options.page.unwrap_or(DEFAULT_PAGE),
        order: or_default(Setting::Order, options.order),
        arenas: or_default(Setting::Arenas, options.arenas),
        chunks: or_default(Setting::Chunks, options.chunks),
        handles: or_default(Setting::Handles, options.handles),
        lanes,
        level: options.level.unwrap_or(Level::Simple),
        interval: or_default(Setting::Interval, options.interval),
    }
}

/// Whether a chunk, and all chunks together, are within their bounds.
pub fn is_within_memory(options: &Options) -> bool
    requires { AreOptions options.now }
    ensures same { result ≡ is_within_memory options.now }
    ensures sound { result ≡ true → AreSound options.now }
{
    bytes_of_chunk(options) <= CHUNK_MOST && all_chunk_bytes(options) <= ALL_CHUNKS_MOST
}

// The bytes of a chunk.
fn bytes_of_chunk(options: &Options) -> u64
    requires { AreOptions options.now }
    ensures bytes { result ≡ bytes_of_chunk options.now }
    ensures most { result ≤ 67108864 }
{
    let Shape { page, order, .. } = shape(options, 1);
    u64::from(page) << order
}

// The bytes of all chunks of all arenas.
fn all_chunk_bytes(options: &Options) -> u64
    requires { AreOptions options.now }
    ensures { result ≡ all_chunk_bytes options.now }
{
    let Shape { arenas, chunks, .. } = shape(options, 1);
    u64::from(arenas) * (u64::from(chunks) * bytes_of_chunk(options))
}
