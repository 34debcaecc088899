//! The bytes of whole composites.

ghost use Rattle.std.specs.Prelude.{◌≡◌, ◌++◌, IfOk, map};
ghost use Rattle.std.specs.List.{concat};

use pool_law::Bytes;
use share_text::Parts;
use std::alloc::{AllocError, Global};

/// The bytes of each composite: those of its parts, one part after another.
pub fn wholes_of(alloc: Global, composites: &[Parts]) -> Result<Vec<Bytes>, AllocError>
    ensures { IfOk result (λ wholes. wholes.items ≡ map concat composites.now) }
{
    let mut wholes = Vec::with_capacity(alloc, composites.len())?;
    for parts in composites {
        let whole = whole_of(alloc, parts.items())?;
        wholes.push_reserved(whole);
    }
    Ok(wholes)
}

// The bytes of parts, one part after another.
fn whole_of(alloc: Global, parts: &[Bytes]) -> Result<Bytes, AllocError>
    ensures { IfOk result (λ bytes. bytes ≡ concat parts.now) }
{
    let mut bytes = Vec::new(alloc);
    for part in parts {
        bytes.extend_from_slice(part.items())?;
    }
    Ok(Bytes::of(bytes))
}
