#![tactic(auto)]
//! A pool of buffers for programs in C. Each call tests what its caller could break by values, and
//! answers by a code; no call waits.

mod buffer;
mod calls;
mod carried;
mod closable;
mod closing;
mod closing_exports;
mod codes;
mod config;
mod exports;
mod growing;
mod growing_exports;
mod handle;
mod held;
mod loose;
mod opening;
mod parcel;
mod parcel_exports;
mod parcel_handle;
mod parcel_slot;
mod passing;
mod slot;
mod thread;

pub use buffer::PoolBuffer;
pub use carried::Carried;
pub use closing::PoolEnd;
pub use config::PoolConfig;
pub use handle::PoolThread;
pub use parcel_handle::PoolParcel;
