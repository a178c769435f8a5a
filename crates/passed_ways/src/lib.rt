// The story of the current way: for each way before it one line that says why it is out. The lines are written into a lent buffer.
#![tactic(auto)]

ghost use Rattle.std.specs.Prelude.{◌≡◌, ◌+◌, ◌*◌, ◌^◌, ◌≤◌, ◌<◌, length};
ghost use Rattle.std.proofs.lemmas.List.Edits.{sets};
ghost use Rattle.decimal.specs.Rows.{in_row};
ghost use Rattle.passed_ways.specs.Listing.{line_bytes, reason_of, letter_of, booking_of, line_text, row_of};

// The bytes of a line.
pub const LINE_BYTES: usize = 11;

// Why a way is out: a booking of it is lost, or it lacks one that is held and firm. The booking is given by its index.
#[derive(Clone, Copy, PartialEq, Eq, Debug)]
pub enum Reason {
    Lost(usize),
    Lacks(usize),
}

impl Reason {
    fn letter(self) -> u8
        ensures { result ≡ letter_of self }
    {
        match self {
            Reason::Lost(_) => b'N',
            Reason::Lacks(_) => b'H',
        }
    }

    fn booking(self) -> usize
        ensures { result ≡ booking_of self }
    {
        match self {
            Reason::Lost(b) | Reason::Lacks(b) => b,
        }
    }
}

// Why the set way is out, by the lost bookings and by the held firm ones: its lowest lost booking, or else the lowest held firm one that it lacks.
#[tactic(auto, unfolding(crate::specs::Listing::reason_of, crate::specs::Listing::lowest))]
fn why_out(lost: u64, firm: u64, way: u64) -> Reason
    ensures { result ≡ reason_of lost firm way }
{
    if !sets::disjoint(way, lost) {
        Reason::Lost(sets::lowest(way & lost))
    } else {
        Reason::Lacks(sets::lowest(sets::minus(firm, way)))
    }
}

// Writes the line of way number x. Both numbers must fit their columns.
fn write_line(line: &mut [u8], x: usize, why: Reason)
    requires { (line_bytes ≤ length line.old) × (x < 10 ^ 4) × (booking_of why + 1 < 10 ^ 4) }
    ensures { line.new ≡ sets line.old 0 (line_text x why) }
{
    line[0] = b'V';
    decimal::write_number(&mut line[1..5], x);
    line[5] = why.letter();
    decimal::write_number(&mut line[6..10], why.booking() + 1);
    line[10] = b'\n';
}

// Writes the lines of these ways, which are numbered from 1, at the front of a buffer that has room for them.
pub fn write_listing(buf: &mut [u8], ways: &[u64], lost: u64, firm: u64)
    requires { (length ways.now ≤ 16) × (line_bytes * length ways.now ≤ length buf.old) }
    ensures { buf.new ≡ sets buf.old 0 (in_row (row_of lost firm ways.now) (length ways.now)) }
{
    for (i, way) in ways.iter().enumerate() {
        write_line(&mut buf[LINE_BYTES * i..], i + 1, why_out(lost, firm, *way));
    }
}
