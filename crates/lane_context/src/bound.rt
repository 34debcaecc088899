//! What a name of a lane is bound to.

use crate::composed::Composed;
use byte_view::View;

/// A view, or a composite, which is boxed since names are mostly bound to views.
#[derive(Drop)]
pub enum Bound {
    /// A view of bytes of one root.
    Plain(View),
    /// A composite of parts of roots.
    Composed(Box<Composed>),
}
