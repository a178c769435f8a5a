// Writes the lines of a fixed width of a plan sheet into a lent buffer: the head, the bookings, the links. All other bytes are kept.
#![tactic(auto)]

ghost use Rattle.std.specs.Prelude.{◌≡◌, ◌*◌, ◌≤◌, length};
ghost use Rattle.std.proofs.lemmas.List.Edits.{sets};
ghost use Rattle.plan.specs.Limits.{most_bookings, most_links};
ghost use Rattle.lines.specs.Form.{head_bytes, booking_bytes, link_bytes};
ghost use Rattle.lines.specs.Head.{head_text};
ghost use Rattle.lines.specs.Booking.{booking_text};
ghost use Rattle.lines.specs.Link.{link_text};
ghost use Rattle.lines.specs.Bookings.{bookings_text};
ghost use Rattle.lines.specs.Links.{links_text};

use lines::{BOOKING_BYTES, HEAD_BYTES, LINK_BYTES};

// Writes the head line.
// Four numbers and no `lines::Counts`: a plan has them one by one, and docs/RULES.md names this function.
pub fn write_head(line: &mut [u8], n: usize, m: usize, a: usize, limit: usize)
    requires { head_bytes ≤ length line.old }
    ensures { line.new ≡ sets line.old 0 (head_text n m a limit) }
{
    line[0] = b'P';
    decimal::write_field(&mut line[1..5], n);
    decimal::write_field(&mut line[5..9], m);
    decimal::write_field(&mut line[9..13], a);
    decimal::write_field(&mut line[13..17], limit);
    line[HEAD_BYTES - 1] = b'\n';
}

// Writes the line of booking number x, of kind k and at desk d.
pub fn write_booking(line: &mut [u8], x: usize, k: u8, d: usize)
    requires { booking_bytes ≤ length line.old }
    ensures { line.new ≡ sets line.old 0 (booking_text x k d) }
{
    line[0] = b'B';
    decimal::write_field(&mut line[1..5], x);
    line[5] = b' ';
    line[6] = k;
    decimal::write_field(&mut line[7..11], d);
    line[BOOKING_BYTES - 1] = b'\n';
}

// Writes the line of the link from u to v.
pub fn write_link(line: &mut [u8], u: usize, v: usize)
    requires { link_bytes ≤ length line.old }
    ensures { line.new ≡ sets line.old 0 (link_text u v) }
{
    line[0] = b'L';
    decimal::write_field(&mut line[1..5], u);
    decimal::write_field(&mut line[5..9], v);
    line[LINK_BYTES - 1] = b'\n';
}

// Writes the lines of the bookings 1 to n.
// The count stands beside arrays of full size, as in a plan: `bookings_text` speaks of both.
pub fn write_bookings(text: &mut [u8], n: usize, kind: &[u8; 64], desk: &[u8; 64])
    requires { (n ≤ most_bookings) × (booking_bytes * n ≤ length text.old) }
    ensures { text.new ≡ sets text.old 0 (bookings_text n 0 kind.now desk.now) }
{
    // by index: it names a booking in both arrays, and its line
    for i in 0..n {
        write_booking(
            &mut text[BOOKING_BYTES * i..],
            i + 1,
            kind[i],
            desk[i] as usize,
        );
    }
}

// Writes the lines of m links.
pub fn write_links(text: &mut [u8], m: usize, from: &[u8; 512], to: &[u8; 512])
    requires { (m ≤ most_links) × (link_bytes * m ≤ length text.old) }
    ensures { text.new ≡ sets text.old 0 (links_text m 0 from.now to.now) }
{
    // by index: it names a link in both arrays, and its line
    for i in 0..m {
        let u = from[i] as usize;
        let v = to[i] as usize;
        write_link(&mut text[LINK_BYTES * i..], u, v);
    }
}
