// The lines of a fixed width of a plan sheet: the head, the bookings, the links. Each is read from a part of the sheet.
#![tactic(auto)]

ghost use Rattle.std.specs.Prelude.{◌≡◌, ◌≤◌, ◌<◌, drop};
ghost use Rattle.plan.specs.Limits.{most_bookings, most_links};
ghost use Rattle.plan.specs.Links.{no_links, empty_links};
ghost use Rattle.lines.specs.Form.{links_place, ways_place, is_framed};
ghost use Rattle.lines.specs.Head.{counts_of, head_of};
ghost use Rattle.lines.specs.LineFault.{fault_on};
ghost use Rattle.lines.specs.Booking.{booking_of};
ghost use Rattle.lines.specs.Link.{link_of};
ghost use Rattle.lines.specs.Bookings.{bookings_of, no_bookings};
ghost use Rattle.lines.specs.Links.{links_of};

use decimal::NoNumber;
use plan::{Fault, Limits, Link, Links};

// How many bytes the head has, its line feed included.
pub const HEAD_BYTES: usize = 18;

// How many bytes a booking's line has.
pub const BOOKING_BYTES: usize = 12;

// How many bytes a link's line has.
pub const LINK_BYTES: usize = 10;

// What the head line holds: how many bookings, links and ways a plan has, and how many matters a desk may have open.
#[derive(Clone, Copy, PartialEq, Eq, Debug)]
pub struct Counts {
    pub bookings: usize,
    pub links: usize,
    pub ways: usize,
    pub limit: usize,
}

// Why a head line is refused: a number is past the limits of the caller, it is of another form, or a number is outside the limits of every sheet.
// In the order of the sheet's faults.
#[derive(Clone, Copy, PartialEq, Eq, Debug)]
pub enum HeadFault {
    Oversize,
    Malformed,
    OutOfLimits,
}

impl From<NoNumber> for HeadFault {
    ghost use Rattle.lines.specs.declared.HeadFault.TheVariants.{Malformed};

    ghost from_gives = { λ _ fault. fault ≡ Malformed };

    fn from(_none: NoNumber) -> HeadFault {
        HeadFault::Malformed
    }
}

impl From<HeadFault> for Fault {
    ghost use Rattle.lines.specs.HeadFault.{head_fault_of};

    ghost from_gives = { λ head fault. fault ≡ head_fault_of head };

    // The sheet's fault where this is the fault of its head, which is line 1.
    fn from(head: HeadFault) -> Fault {
        match head {
            HeadFault::Malformed => Fault::Form(1),
            HeadFault::OutOfLimits => Fault::Count(1),
            HeadFault::Oversize => Fault::Oversize(1),
        }
    }
}

// Why the line of a booking or a link is refused: it is of another form, or a number is out of sequence or range.
#[derive(Clone, Copy, PartialEq, Eq, Debug)]
pub enum LineFault {
    Malformed,
    OutOfSequence,
}

impl From<NoNumber> for LineFault {
    ghost use Rattle.lines.specs.declared.LineFault.TheVariants.{Malformed};

    ghost from_gives = { λ _ fault. fault ≡ Malformed };

    fn from(_none: NoNumber) -> LineFault {
        LineFault::Malformed
    }
}

impl LineFault {
    // The sheet's fault, where this is the fault of such a line.
    pub fn on(self, line: usize) -> Fault
        ensures { result ≡ fault_on self line }
    {
        match self {
            LineFault::Malformed => Fault::Form(line),
            LineFault::OutOfSequence => Fault::Sequence(line),
        }
    }
}

// The kinds and desks that the lines of the bookings give; up to the refused line, if one is. No Result: the clause of `read_bookings`, and the
// definition `bookings_of`, say what they are there too.
#[derive(Clone, Copy)]
pub struct Bookings {
    pub judged: Result<(), Fault>,
    pub kind: [u8; 64],
    pub desk: [u8; 64],
}

// Where the links of a sheet begin, after n bookings.
pub fn links_place(n: usize) -> usize
    requires { n ≤ most_bookings }
    ensures { result ≡ links_place n }
{
    HEAD_BYTES + BOOKING_BYTES * n
}

// Where the ways of a sheet begin, after n bookings and m links.
pub fn ways_place(n: usize, m: usize) -> usize
    requires { (n ≤ most_bookings) × (m ≤ most_links) }
    ensures { result ≡ ways_place n m }
{
    links_place(n) + LINK_BYTES * m
}

// Whether a line has w bytes, begins with a letter and ends in a line feed.
#[tactic(auto, unfolding(crate::specs::Form::is_framed))]
pub fn is_framed(line: &[u8], letter: u8, w: usize) -> bool
    requires { 1 ≤ w }
    ensures { result ≡ is_framed letter w line.now }
{
    line.len() == w && line[0] == letter && line[w - 1] == b'\n'
}

// The numbers of a head line, if they are within the limits of every sheet, and then within those of the caller.
#[tactic(auto, unfolding(crate::specs::Head::counts_of))]
fn counts_of(most: Limits, counts: Counts) -> Result<Counts, HeadFault>
    ensures { result ≡ counts_of most counts.bookings counts.links counts.ways counts.limit }
{
    if !plan::in_limits(counts.bookings, counts.links, counts.ways, counts.limit) {
        return Err(HeadFault::OutOfLimits);
    }
    if !plan::are_counted(most, counts.bookings, counts.links, counts.ways) {
        return Err(HeadFault::Oversize);
    }
    Ok(counts)
}

// Reads the head line, for a caller with such limits.
pub fn read_head(line: &[u8], most: Limits) -> Result<Counts, HeadFault>
    ensures { result ≡ head_of most line.now }
{
    if !is_framed(line, b'P', HEAD_BYTES) {
        return Err(HeadFault::Malformed);
    }
    let bookings = decimal::field_at(line, 1, 4)?;
    let links = decimal::field_at(line, 5, 4)?;
    let ways = decimal::field_at(line, 9, 4)?;
    let limit = decimal::field_at(line, 13, 4)?;
    counts_of(
        most,
        Counts {
            bookings,
            links,
            ways,
            limit,
        },
    )
}

// Reads the line of booking number x: the letter of its kind and the number of its desk.
pub fn read_booking(line: &[u8], x: usize) -> Result<(u8, u8), LineFault>
    ensures { result ≡ booking_of line.now x }
{
    if !is_framed(line, b'B', BOOKING_BYTES) {
        return Err(LineFault::Malformed);
    }
    let number = decimal::field_at(line, 1, 4)?;
    let kind = line[6];
    if line[5] != b' ' || !plan::known_kind(kind) {
        return Err(LineFault::Malformed);
    }
    let desk = decimal::field_at(line, 7, 4)?;
    if number != x || !plan::known_desk(desk) {
        return Err(LineFault::OutOfSequence);
    }
    Ok((kind, desk as u8))
}

// Reads a link's line in a plan of n bookings, after the last link: its two bookings by number.
// A pair of bytes and no `Link`: the definition `link_of` gives what the lists of links hold.
pub fn read_link(line: &[u8], n: usize, last: Link) -> Result<(u8, u8), LineFault>
    requires { n ≤ most_bookings }
    ensures { result ≡ link_of line.now n last.from last.to }
{
    if !is_framed(line, b'L', LINK_BYTES) {
        return Err(LineFault::Malformed);
    }
    let from = decimal::field_at(line, 1, 4)?;
    let to = decimal::field_at(line, 5, 4)?;
    if !plan::in_sequence(n, last, Link { from, to }) {
        return Err(LineFault::OutOfSequence);
    }
    Ok((from as u8, to as u8))
}

// Reads the lines of the bookings 1 to n, which start at at.
pub fn read_bookings(s: &[u8], at: usize, n: usize) -> Bookings
    requires { (n ≤ most_bookings) × (at < 65536) }
    ensures { result ≡ bookings_of n 0 (drop at s.now) no_bookings no_bookings }
{
    let mut kind = [0u8; 64];
    let mut desk = [0u8; 64];
    // by index: it names a booking's line, and its place in both arrays
    for i in 0..n {
        let line = decimal::part(s, at + BOOKING_BYTES * i, BOOKING_BYTES);
        match read_booking(line, i + 1) {
            Ok((k, d)) => {
                kind[i] = k;
                desk[i] = d;
            }
            Err(fault) => {
                return Bookings {
                    judged: Err(fault.on(i + 2)),
                    kind,
                    desk,
                };
            }
        }
    }
    Bookings {
        judged: Ok(()),
        kind,
        desk,
    }
}

// Reads the lines of m links, which start at at, in a plan of n bookings, into lent links that come empty: links handed on by
// value would be copied at each step on their way.
pub fn read_links(s: &[u8], at: usize, n: usize, m: usize, links: &mut Links) -> Result<(), Fault>
    requires { (n ≤ most_bookings) × (m ≤ most_links) × (at < 65536) × (links.old ≡ empty_links) }
    ensures told { result ≡ (links_of n m 0 (drop at s.now) 0 0 no_links no_links).judged }
    ensures left { (links.new.from ≡ (links_of n m 0 (drop at s.now) 0 0 no_links no_links).from)
        × (links.new.to ≡ (links_of n m 0 (drop at s.now) 0 0 no_links no_links).to) }
{
    let mut last = Link::default();
    // by index: it names a link's line, and its place in both arrays
    for i in 0..m {
        let line = decimal::part(s, at + LINK_BYTES * i, LINK_BYTES);
        match read_link(line, n, last) {
            Ok((u, v)) => {
                links.from[i] = u;
                links.to[i] = v;
                last = Link {
                    from: u as usize,
                    to: v as usize,
                };
            }
            // no `map_err` with a `?`: its closure needs a clause of its own for the proof, and is longer than these arms
            Err(fault) => return Err(fault.on(n + 2 + i)),
        }
    }
    Ok(())
}
