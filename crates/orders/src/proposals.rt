// The kinds of proposal. Their orders are written out and not derived, so that a clause says which proposal comes first.
ghost use Rattle.std.specs.Ordering.{nat_cmp, ordering_then};
ghost use Rattle.std.proofs.Common.{rules};

use crate::Order;
use std::cmp::Ordering;

// A cue: lower before higher.
#[derive(Clone, Copy)]
pub struct Cue(pub u32);

impl Order for Cue {
    ghost places = { λ a b. nat_cmp a.0 b.0 };

    ghost mirrored = { Prim.search rules };

    ghost onward = { Prim.search rules };

    ghost alike = { Prim.search rules };

    fn compare(&self, other: &Cue) -> Ordering {
        self.0.cmp(&other.0)
    }
}

// A first press: lower tick before higher, and at the same tick lower cue before higher.
#[derive(Clone, Copy)]
pub struct FirstPress {
    pub tick: u32,
    pub cue: u32,
}

impl Order for FirstPress {
    ghost places = { λ a b. ordering_then (nat_cmp a.tick b.tick) (nat_cmp a.cue b.cue) };

    ghost mirrored = { Prim.search rules };

    ghost onward = { Prim.search rules };

    ghost alike = { Prim.search rules };

    fn compare(&self, other: &FirstPress) -> Ordering {
        self.tick.cmp(&other.tick).then(self.cue.cmp(&other.cue))
    }
}
