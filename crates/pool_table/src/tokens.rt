//! The end token of a root: which root it is, and how it is spent without a step.

ghost use Rattle.std.specs.Prelude.{◌≡◌};

use crate::roots::EndToken;
use pool_law::RootId;

impl EndToken {
    /// The root that ended.
    pub fn root(&self) -> RootId
        ensures { result ≡ self.now.root }
    {
        self.root
    }

    /// Spends the token. Its place is never vacated.
    pub fn leave(self) {
        let EndToken { root: _ } = self;
    }
}
