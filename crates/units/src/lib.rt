// Distance, flow and total: three units that no sum mixes. Flows, and so totals, count in thousandths.
#![tactic(auto)]

ghost use Rattle.std.specs.Prelude.{◌≡◌, ◌+◌, ◌-◌, ◌*◌, ◌^◌, ◌<◌, ◌≤◌, min, nat_lt};

use std::ops::{Add, Mul, Sub};

// A sum of link lengths.
#[derive(Clone, Copy, PartialEq, Eq, PartialOrd, Ord, Debug)]
pub struct Distance(pub u64);

// Thousandths of a flow: all of it is 1,000 × f, its cachable part f × p or 1,000 × the cachable bytes.
#[derive(Clone, Copy, PartialEq, Eq, PartialOrd, Ord, Debug)]
pub struct Flow(pub u64);

// Thousandths of flow over distance.
#[derive(Clone, Copy, PartialEq, Eq, PartialOrd, Ord, Debug)]
pub struct Total(pub u64);

impl Distance {
    pub const ZERO: Distance = Distance(0);
}

impl Add for Distance {
    type Output = Distance;

    ghost can_add = { λ a b. a.0 + b.0 < 2 ^ 64 };

    ghost add_gives = { λ a b r. r.0 ≡ a.0 + b.0 };

    fn add(self, rhs: Distance) -> Distance {
        Distance(self.0 + rhs.0)
    }
}

// How much farther one is than the other.
impl Sub for Distance {
    type Output = Distance;

    ghost can_sub = { λ a b. b.0 ≤ a.0 };

    ghost sub_gives = { λ a b r. r.0 ≡ a.0 - b.0 };

    fn sub(self, rhs: Distance) -> Distance {
        Distance(self.0 - rhs.0)
    }
}

impl Flow {
    pub const ZERO: Flow = Flow(0);
    // A whole flow in thousandths.
    pub const WHOLE: u64 = 1_000;
}

impl Add for Flow {
    type Output = Flow;

    ghost can_add = { λ a b. a.0 + b.0 < 2 ^ 64 };

    ghost add_gives = { λ a b r. r.0 ≡ a.0 + b.0 };

    fn add(self, rhs: Flow) -> Flow {
        Flow(self.0 + rhs.0)
    }
}

// What is left of a flow without the other.
impl Sub for Flow {
    type Output = Flow;

    ghost can_sub = { λ a b. b.0 ≤ a.0 };

    ghost sub_gives = { λ a b r. r.0 ≡ a.0 - b.0 };

    fn sub(self, rhs: Flow) -> Flow {
        Flow(self.0 - rhs.0)
    }
}

// A flow over a distance is a total.
impl Mul<Distance> for Flow {
    type Output = Total;

    ghost can_mul = { λ a b. a.0 * b.0 < 2 ^ 64 };

    ghost mul_gives = { λ a b r. r.0 ≡ a.0 * b.0 };

    fn mul(self, rhs: Distance) -> Total {
        Total(self.0 * rhs.0)
    }
}

impl Total {
    pub const ZERO: Total = Total(0);
    // 2^62, which no total reaches.
    pub const CAP: Total = Total(1 << 62);

    // Not `Ord::min`, whose promise speaks of `cmp`: this one is about numbers.
    pub fn lesser(self, other: Total) -> Total
        ensures { result.0 ≡ min self.0 other.0 }
    {
        Total(self.0.min(other.0))
    }

    // The lesser of this, at most 2^62, and a sum of at most 2^63. Their difference is compared, so that the compiler makes no jump;
    // that is faster than `lesser` where either may be the smaller.
    pub fn lowered(self, by: Total) -> Total
        requires { (self.0 ≤ 2 ^ 62) × (by.0 ≤ 2 ^ 63) }
        ensures { result.0 ≡ min self.0 by.0 }
    {
        if self.0.wrapping_sub(by.0) < (1 << 63) {
            by
        } else {
            self
        }
    }

    pub fn is_less(self, other: Total) -> bool
        ensures { result ≡ nat_lt self.0 other.0 }
    {
        self.0 < other.0
    }
}

impl Add for Total {
    type Output = Total;

    ghost can_add = { λ a b. a.0 + b.0 < 2 ^ 64 };

    ghost add_gives = { λ a b r. r.0 ≡ a.0 + b.0 };

    fn add(self, rhs: Total) -> Total {
        Total(self.0 + rhs.0)
    }
}

// What is left of a total without the other.
impl Sub for Total {
    type Output = Total;

    ghost can_sub = { λ a b. b.0 ≤ a.0 };

    ghost sub_gives = { λ a b r. r.0 ≡ a.0 - b.0 };

    fn sub(self, rhs: Total) -> Total {
        Total(self.0 - rhs.0)
    }
}
