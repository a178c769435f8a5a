// The ways of a plan sheet: the line of a way, read as a set of bookings and written from it.
#![tactic(auto)]

ghost use Rattle.std.specs.Prelude.{◌≡◌, ◌+◌, ◌*◌, ◌≤◌, ◌<◌, length, drop};
ghost use Rattle.std.proofs.lemmas.List.Edits.{sets};
ghost use Rattle.bounded.specs.Bounded.{all};
ghost use Rattle.sets.specs.Sets.{size_of};
ghost use Rattle.plan.specs.Limits.{most_bookings, most_ways};
ghost use Rattle.decimal.specs.Decimal.{field_at};
ghost use Rattle.ways.specs.WayText.{members, numbers_text, way_bytes, way_text, ways_text, ways_length};
ghost use Rattle.ways.specs.Way.{count_of, number_there, sequence_or_form, way_fault, gather_of, line_feed_at, way_line_of};
ghost use Rattle.ways.specs.Ways.{way_fault_on, ways_of, no_ways};

use decimal::NoNumber;
use lines::LineFault;
use plan::Fault;

// Why a way line is refused: for its form, for its count, or for one of its numbers.
#[derive(Clone, Copy, PartialEq, Eq, Debug)]
pub enum WayFault {
    Malformed,
    OutOfLimits,
    OutOfSequence,
}

impl WayFault {
    // What is wrong with a sheet whose way on a line is refused so.
    pub fn on(self, line: usize) -> Fault
        ensures { result ≡ way_fault_on self line }
    {
        match self {
            WayFault::Malformed => Fault::Form(line),
            WayFault::OutOfLimits => Fault::Count(line),
            WayFault::OutOfSequence => Fault::Sequence(line),
        }
    }
}

impl From<NoNumber> for WayFault {
    ghost use Rattle.ways.specs.declared.WayFault.TheVariants.{Malformed};

    ghost from_gives = { λ _ w. w ≡ Malformed };

    fn from(_e: NoNumber) -> WayFault {
        WayFault::Malformed
    }
}

impl From<LineFault> for WayFault {
    ghost from_gives = { λ e w. w ≡ way_fault e };

    fn from(e: LineFault) -> WayFault {
        match e {
            LineFault::Malformed => WayFault::Malformed,
            LineFault::OutOfSequence => WayFault::OutOfSequence,
        }
    }
}

// What the way lines hold, up to the refused line, if one is; and the place after the last one that was read. No Result: the clause of
// `read_ways`, and the definition `ways_of`, say what the ways and the place are there too.
#[derive(Clone, Copy)]
pub struct Ways {
    pub judged: Result<(), Fault>,
    pub next: usize,
    pub way: [u64; 16],
}

// How many bytes of a way line stand in front of its numbers: its letter and its count.
const WAY_FRONT_BYTES: usize = 5;

// How many bytes the line of a way with k bookings has: its front, k numbers, the line feed.
fn way_bytes(k: usize) -> usize
    requires { k ≤ most_bookings }
    ensures { result ≡ way_bytes k }
{
    6 + 4 * k
}

// The count at the front of a way line, after its letter.
#[tactic(auto, unfolding(crate::specs::Way::count_of))]
fn read_count(front: &[u8]) -> Result<usize, NoNumber>
    ensures { result ≡ count_of front.now }
{
    if front.first() != Some(&b'A') {
        return Err(NoNumber::Fault);
    }
    decimal::field_at(front, 1, 4)
}

// Whether the k fields from at on are numbers. A `for`: what `(0..k).all(..)` calls for each field was not found by the check.
// These readers take the sheet and a place, no slice from there on: a sheet may end before the place, and then has no such line.
fn are_numbers(s: &[u8], at: usize, k: usize) -> bool
    requires { (k ≤ most_bookings) × (at < 65536) }
    ensures { result ≡ all (number_there (drop at s.now)) k }
{
    for j in 0..k {
        if decimal::field_at(s, at + 4 * j, 4).is_err() {
            return false;
        }
    }
    true
}

// What is wrong with a line that has a number out of sequence, with the k fields from at on after it.
#[tactic(auto, unfolding(crate::specs::Way::sequence_or_form))]
fn sequence_or_form(s: &[u8], at: usize, k: usize) -> LineFault
    requires { (k ≤ most_bookings) × (at < 65536) }
    ensures { result ≡ sequence_or_form k (drop at s.now) }
{
    if are_numbers(s, at, k) {
        LineFault::OutOfSequence
    } else {
        LineFault::Malformed
    }
}

// The set of the k numbers from at on, which are to rise strictly and to be at most n.
fn gather(s: &[u8], at: usize, k: usize, n: usize) -> Result<u64, LineFault>
    requires { (k ≤ most_bookings) × (n ≤ most_bookings) × (at < 32768) }
    ensures { result ≡ gather_of n 0 0 k (drop at s.now) }
{
    let mut set = 0u64;
    let mut last = 0;
    // by index: it names a field of the line
    for j in 0..k {
        let x = decimal::field_at(s, at + 4 * j, 4)?;
        if !plan::is_within(last + 1, x, n) {
            return Err(sequence_or_form(s, at + 4 * (j + 1), k - (j + 1)));
        }
        set |= sets::bit(x - 1);
        last = x;
    }
    Ok(set)
}

// Whether a line feed stands at at.
#[tactic(auto, unfolding(crate::specs::Way::line_feed_at))]
fn line_feed_at(s: &[u8], at: usize) -> bool
    ensures { result ≡ line_feed_at at s.now }
{
    s.get(at) == Some(&b'\n')
}

// Reads the way line that starts at at, of a plan with n bookings: how many bookings it has, and their set.
pub fn read_way(s: &[u8], at: usize, n: usize) -> Result<(usize, u64), WayFault>
    requires { (n ≤ most_bookings) × (at < 32000) }
    ensures { result ≡ way_line_of n (drop at s.now) }
{
    let k = read_count(decimal::part(s, at, WAY_FRONT_BYTES))?;
    if !plan::is_within(1, k, n) {
        return Err(WayFault::OutOfLimits);
    }
    if !line_feed_at(s, at + WAY_FRONT_BYTES + 4 * k) {
        return Err(WayFault::Malformed);
    }
    let set = gather(s, at + WAY_FRONT_BYTES, k, n)?;
    Ok((k, set))
}

// Reads a way lines from at on, of a plan with n bookings; the first of them is line first.
pub fn read_ways(s: &[u8], at: usize, n: usize, a: usize, first: usize) -> Ways
    requires { (n ≤ most_bookings) × (a ≤ most_ways) × (at < 16384) × (first < 16384) }
    ensures { result ≡ ways_of n first a 0 at (drop at s.now) no_ways }
{
    let mut way = [0u64; 16];
    let mut next = at;
    // by index: it names a way's line, and its place in the array
    for i in 0..a {
        match read_way(s, next, n) {
            Ok((k, x)) => {
                way[i] = x;
                next += way_bytes(k);
            }
            Err(fault) => {
                return Ways {
                    judged: Err(fault.on(first + i)),
                    next,
                    way,
                };
            }
        }
    }
    Ways {
        judged: Ok(()),
        next,
        way,
    }
}

// Writes the numbers of the bookings in s, and gives the place after them.
// A place and no slice: the lines differ in width, and each gives the place where the next one begins.
fn write_members(buf: &mut [u8], at: usize, s: u64) -> usize
    requires { at + 4 * size_of s ≤ length buf.old }
    ensures next { result ≡ at + 4 * size_of s }
    ensures text { buf.new ≡ sets buf.old at (numbers_text (members s)) }
{
    let mut next = at;
    for b in sets::members_of(s) {
        decimal::write_field(&mut buf[next..next + 4], b + 1);
        next += 4;
    }
    next
}

// Writes the line of the way with the set s, and gives the place after it. The count is that of the ones in s.
pub fn write_way(buf: &mut [u8], at: usize, s: u64) -> usize
    requires { at + way_bytes (size_of s) ≤ length buf.old }
    ensures next { result ≡ at + way_bytes (size_of s) }
    ensures text { buf.new ≡ sets buf.old at (way_text s) }
{
    buf[at] = b'A';
    decimal::write_field(&mut buf[at + 1..at + 5], sets::size(s));
    let next = write_members(buf, at + WAY_FRONT_BYTES, s);
    buf[next] = b'\n';
    next + 1
}

// Writes the lines of ways, and gives the place after them.
pub fn write_ways(buf: &mut [u8], at: usize, ways: &[u64]) -> usize
    requires { (length ways.now ≤ most_ways) × (at + ways_length (length ways.now) ways.now ≤ length buf.old) }
    ensures next { result ≡ at + ways_length (length ways.now) ways.now }
    ensures text { buf.new ≡ sets buf.old at (ways_text (length ways.now) 0 ways.now) }
{
    let mut next = at;
    for way in ways {
        next = write_way(buf, next, *way);
    }
    next
}

// How many bytes the lines of ways take.
pub fn ways_size(ways: &[u64]) -> usize
    requires { length ways.now ≤ most_ways }
    ensures { result ≡ ways_length (length ways.now) ways.now }
{
    let mut total = 0;
    for way in ways {
        total += way_bytes(sets::size(*way));
    }
    total
}
