// A set of bookings as the 64 bits of a u64: booking number b is bit b - 1, so its index is its bit.
// A bit is worked out by a shift, in `bit` alone; no table of them is kept.
#![tactic(auto)]

ghost use Rattle.std.specs.Prelude.{◌≡◌, ◌≤◌, ◌<◌};
ghost use Rattle.bounded.specs.Bounded.{first};
ghost use Rattle.std.specs.Iterator.{at_most};
ghost use Rattle.sets.specs.Sets.{alone, member, all_below, without, but_lowest, subset_of, disjoint_from, size_of};
ghost use Rattle.sets.specs.Rising.{GivesLowest};

// The set of index i alone.
pub fn bit(i: usize) -> u64
    requires { i < 64 }
    ensures { result ≡ alone i }
{
    1u64 << i
}

// The set of all indices below n.
pub fn all_below(n: usize) -> u64
    requires { n ≤ 64 }
    ensures { result ≡ all_below n }
{
    if n < 64 { bit(n) - 1 } else { u64::MAX }
}

// Whether index i is in the set s.
pub fn has(s: u64, i: usize) -> bool
    requires { i < 64 }
    ensures { result ≡ member s i }
{
    (s >> i) % 2 == 1
}

// The members of a that are not in b.
pub fn minus(a: u64, b: u64) -> u64
    ensures { result ≡ without a b }
{
    a ^ (a & b)
}

// Whether every member of a is in b.
pub fn subset(a: u64, b: u64) -> bool
    ensures { result ≡ subset_of a b }
{
    a & b == a
}

// Whether a and b have no member in common.
pub fn disjoint(a: u64, b: u64) -> bool
    ensures { result ≡ disjoint_from a b }
{
    a & b == 0
}

// How many members s has.
pub fn size(s: u64) -> usize
    ensures { result ≡ size_of s }
{
    s.count_ones() as usize
}

// The lowest member of s, or 64 where it has none: the contract is the definition `first`, whose bound is 64 here.
pub fn lowest(s: u64) -> usize
    ensures { result ≡ first (member s) 64 }
{
    s.trailing_zeros() as usize
}

// The members of s but the lowest. In s - 1 it is cleared, and those below it are set, which s lacks.
pub fn but_lowest(s: u64) -> u64
    requires { 0 < s }
    ensures { result ≡ but_lowest s }
{
    s & (s - 1)
}

// The members of a set that are still to come, rising.
#[derive(Drop)]
pub struct Rising {
    rest: u64,
}

// The members of s, the lowest first.
pub fn members_of(s: u64) -> Rising
    ensures { result.rest ≡ s }
{
    Rising { rest: s }
}

impl Iterator for Rising {
    type Item = usize;

    ghost next_gives = { GivesLowest };

    ghost remaining = { λ s. at_most (size_of s.rest) };

    fn next(&mut self) -> Option<usize> {
        if self.rest == 0 {
            return None;
        }
        let v = lowest(self.rest);
        self.rest = but_lowest(self.rest);
        Some(v)
    }
}
