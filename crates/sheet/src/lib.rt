// Reads a plan sheet: its plan, or the first line that is refused and why.
#![tactic(auto)]

ghost use Rattle.std.specs.Prelude.{◌≡◌, ◌≤◌};
ghost use Rattle.plan.specs.Limits.{most_bookings, most_links, most_ways};
ghost use Rattle.plan.specs.Links.{empty_links};
ghost use Rattle.sheet.specs.Sheet.{bookings_in, ways_in, body_of, sheet_within, sheet_of, plan_read};
ghost use Rattle.sheet.specs.Outlined.{outlined_of, body_links, links_read};

use lines::{Bookings, Counts};
use plan::{Fault, Limits, Links, Outline, Plan};
use ways::Ways;

// The kinds and desks of the n bookings of a sheet.
fn bookings_in(s: &[u8], n: usize) -> Bookings
    requires { n ≤ most_bookings }
    ensures { result ≡ bookings_in n s.now }
{
    lines::read_bookings(s, lines::HEAD_BYTES, n)
}

// The a ways of a sheet of n bookings and m links.
fn ways_in(s: &[u8], n: usize, m: usize, a: usize) -> Ways
    requires { (n ≤ most_bookings) × (m ≤ most_links) × (a ≤ most_ways) }
    ensures { result ≡ ways_in n m a s.now }
{
    ways::read_ways(s, lines::ways_place(n, m), n, a, n + m + 2)
}

// Reads the lines after the head of a sheet with such counts; the links go into lent ones, which come empty.
fn read_body(s: &[u8], counts: Counts, links: &mut Links) -> Result<Outline, Fault>
    requires { (counts.bookings ≤ most_bookings) × (counts.links ≤ most_links) × (counts.ways ≤ most_ways) × (links.old ≡ empty_links) }
    ensures told { result ≡ outlined_of (body_of counts.bookings counts.links counts.ways counts.limit s.now) }
    ensures left { (links.new.from ≡ (body_links counts.bookings counts.links s.now).from) × (links.new.to ≡ (body_links counts.bookings counts.links s.now).to) }
{
    let n = counts.bookings;
    let m = counts.links;
    let a = counts.ways;
    let bookings = bookings_in(s, n);
    bookings.judged?;
    lines::read_links(s, lines::links_place(n), n, m, links)?;
    let ways = ways_in(s, n, m, a);
    ways.judged?;
    if ways.next != s.len() {
        return Err(Fault::Form(n + m + a + 2));
    }
    // Each array by a variable: a literal of a field's array gets no proof.
    let kind = bookings.kind;
    let desk = bookings.desk;
    let way = ways.way;
    Ok(Outline {
        n,
        m,
        a,
        limit: counts.limit,
        kind,
        desk,
        way,
    })
}

// Reads a sheet for a caller with such limits, whatever its bytes are and however many; the links go into lent ones, which come empty.
pub fn read_outline(s: &[u8], most: Limits, links: &mut Links) -> Result<Outline, Fault>
    requires { links.old ≡ empty_links }
    ensures told { result ≡ outlined_of (sheet_within most s.now) }
    ensures left { (links.new.from ≡ (links_read most s.now).from) × (links.new.to ≡ (links_read most s.now).to) }
{
    let counts = lines::read_head(decimal::part(s, 0, lines::HEAD_BYTES), most)?;
    read_body(s, counts, links)
}

// Reads a sheet of ours to a plan.
pub fn read_sheet(s: &[u8]) -> Result<Plan, Fault>
    ensures { result ≡ plan_read (sheet_of s.now) }
{
    let mut links = Links::none();
    let outline = read_outline(s, plan::ours(), &mut links)?;
    Ok(plan::with_links(&outline, &links))
}
