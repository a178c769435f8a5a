// Precedence among 64 bookings: the 64 sets of direct predecessors go in, and the sets of all that precede come back, as one array of sets.
#![tactic(auto)]

ghost use Rattle.std.specs.Prelude.{◌≡◌, ◌+◌, ◌≤◌, ◌<◌};
ghost use Rattle.precedence.specs.Precedence.{joined_of, joined_four, four_of, closure_of, EmptyFrom};

// The set s, with the set `via` of what comes before k where k is in s.
fn joined(s: u64, via: u64, k: usize) -> u64
    requires { k < 64 }
    ensures { result ≡ joined_of s via k }
{
    if sets::has(s, k) { s | via } else { s }
}

// The set s, with the chains through the four bookings from k on, whose sets are a, b, c and d.
fn joined_four(s: u64, a: u64, b: u64, c: u64, d: u64, k: usize) -> u64
    requires { k + 4 ≤ 64 }
    ensures { result ≡ joined_four s a b c d k }
{
    let two = joined(joined(s, a, k), b, k + 1);
    joined(joined(two, c, k + 2), d, k + 3)
}

// One closure step: each of the first n sets, with the chains through the four bookings from k on; the other sets are empty and stay so.
pub fn through(p: [u64; 64], k: usize, n: usize) -> [u64; 64]
    requires { (k + 4 ≤ 64) × (n ≤ 64) × EmptyFrom n p }
    ensures { result ≡ four_of p k }
{
    // each of the four sets as its own step would find it: with the chains through those of the four before it
    let a = p[k];
    let b = joined(p[k + 1], a, k);
    let c = joined(joined(p[k + 2], a, k), b, k + 1);
    let d = joined(joined(joined(p[k + 3], a, k), b, k + 1), c, k + 2);
    let mut r = [0u64; 64];
    // by index: the sets go in and out by value (docs/DECISIONS.md), and v names one in each array
    for v in 0..n {
        r[v] = joined_four(p[v], a, b, c, d, k);
    }
    r
}

// All that precede each of n bookings, from what comes directly before it.
pub fn closure(d: [u64; 64], n: usize) -> [u64; 64]
    requires { (n ≤ 64) × EmptyFrom n d }
    ensures { result ≡ closure_of d }
{
    let mut p = d;
    for k in (0..n).step_by(4) {
        // a step changes nothing where nothing comes before the four
        if p[k] | p[k + 1] | p[k + 2] | p[k + 3] != 0 {
            p = through(p, k, n);
        }
    }
    p
}
