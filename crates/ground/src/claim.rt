//! Which piece has which places of a ground.
//! All of it is ghost state: it takes no memory and no time.
ghost use Rattle.std.specs.Prelude.{◌≡◌, ℕ, ◌+◌, ◌-◌, ◌<◌, ◌≤◌};
ghost use denote.Sharing.{one};
ghost use Rattle.ground.specs.Ownership.{claim, claim_owns};
ghost use Rattle.ground.specs.Ground.{ApartAt};

use std::marker::Model;

// The right to be the one piece at `len` places from `start` on, in the ground `name`, which has
// `size` places.
pub(crate) struct Claim {
    ghost name: { ℕ },
    ghost start: { ℕ },
    ghost len: { ℕ },
    ghost size: { ℕ },
}

impl Model for Claim {
    ghost also_owns = { λ c. claim_owns c.name c.start c.len };

    ghost also_shares = { λ c _. one (claim c.name c.start c.len) };
}

impl Claim {
    // A ground of its own, whole.
    pub(crate) fn new(len: usize) -> Claim
        ensures { (result.start ≡ 0) × (result.len ≡ len) × (result.size ≡ len) }
    {
        Claim {}
    }

    // The first `at` places, and the others.
    pub(crate) fn cut(self, at: usize) -> (Claim, Claim)
        requires { at ≤ self.len }
        ensures { (result.0.name ≡ self.name) × (result.0.start ≡ self.start)
            × (result.0.len ≡ at)
            × (result.1.name ≡ self.name) × (result.1.start ≡ self.start + at)
            × (result.1.len ≡ self.len - at)
            × (result.0.size ≡ self.size) × (result.1.size ≡ self.size) }
    {
        let Claim {} = self;
        (Claim {}, Claim {})
    }

    // The places of both, where `right` begins as this claim ends.
    pub(crate) fn glue(self, right: Claim) -> Claim
        requires { (right.name ≡ self.name) × (right.start ≡ self.start + self.len) }
        ensures { (result.name ≡ self.name) × (result.start ≡ self.start)
            × (result.len ≡ self.len + right.len) × (result.size ≡ self.size) }
    {
        let Claim {} = self;
        let Claim {} = right;
        Claim {}
    }

    // Two claims of one ground are one claim, or have no place in common.
    pub(crate) fn apart<'a>(&'a self, other: &'a Claim)
        requires { (0 < self.now.len) × (0 < other.now.len) }
        ensures { other.now.name ≡ self.now.name
            → ApartAt self.now.start self.now.len other.now.start other.now.len }
    {}
}
