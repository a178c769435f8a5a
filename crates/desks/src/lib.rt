// How much each of eight desks has open: which bookings are at a full desk, and whether a desk is above the limit.
// A desk is the set of its bookings, and the open matters are one set of bookings.
#![tactic(auto)]

ghost use Rattle.std.specs.Prelude.{◌≡◌, cond, leb};
ghost use Rattle.std.specs.Int.Bits.{bit_and, bit_or};
ghost use Rattle.sets.specs.Sets.{size_of};
ghost use Rattle.desks.specs.Desks.{full_of, all_in_limit};

// The bookings of full desks, with those of one more desk if it is full.
fn with_desk(at_full: u64, limit: usize, desk: u64, matters: u64) -> u64
    ensures { result ≡ cond (leb limit (size_of (bit_and desk matters))) (bit_or at_full desk) at_full }
{
    if sets::size(desk & matters) >= limit {
        return at_full | desk;
    }
    at_full
}

// The bookings whose desks are full. With fewer matters than the limit in all no desk is, and they need not be counted by desk.
pub fn full(limit: usize, desks: &[u64; 8], matters: u64) -> u64
    ensures { result ≡ full_of limit desks.now matters }
{
    if sets::size(matters) < limit {
        return 0;
    }
    let mut at_full: u64 = 0;
    for desk in desks {
        at_full = with_desk(at_full, limit, *desk, matters);
    }
    at_full
}

// Whether no desk has more open than the limit.
pub fn all_in_limit(limit: usize, desks: &[u64; 8], matters: u64) -> bool
    ensures { result ≡ all_in_limit limit desks.now matters }
{
    if sets::size(matters) <= limit {
        return true;
    }
    desks
        .iter()
        .all(|desk| sets::size(*desk & matters) <= limit)
}
