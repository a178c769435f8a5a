// The plan record: bookings with their kinds and desks, links, ways; its limits; and which counts and entries of a record are refused.
#![tactic(auto)]

ghost use Rattle.std.specs.Prelude.{◌≡◌, ◌&&◌, ◌^◌, ◌≤◌, ltb};
ghost use Rattle.bounded.specs.Bounded.{all};
ghost use Rattle.sets.specs.Sets.{size_of};
ghost use Rattle.plan.specs.Limits.{most_bookings, most_links, most_ways, is_kind, is_desk, within, ours, counted, limits, in_sequence};
ghost use Rattle.plan.specs.Judging.{fault_refusal, fault_line, judged_refusal, judged_place};
ghost use Rattle.plan.specs.Links.{empty_links};
ghost use Rattle.plan.specs.Outline.{plan_of};
ghost use Rattle.plan.specs.Record.{booking_at, link_at, count_at, within_at, counts_fit, entries_fit, record_of};

// A plan: n bookings, m links, a ways. Entries past these counts have no meaning. limit is how many matters a desk may have open.
// The entries stand in lists side by side, not as structs in one: the definitions and the theorems, as `ReadBack`, speak of each list. A kind is
// a byte and no enum: a record may hold any, and `record_of` refuses one that is no kind's letter.
// kind[b] is the letter of booking b + 1, desk[b] the number of its desk; link i joins booking from[i] to booking to[i]; bit b of way[k] says that booking b + 1 is in way k + 1.
#[derive(Clone, Copy)]
pub struct Plan {
    pub n: usize,
    pub m: usize,
    pub a: usize,
    pub limit: usize,
    pub kind: [u8; 64],
    pub desk: [u8; 64],
    pub from: [u8; 512],
    pub to: [u8; 512],
    pub way: [u64; 16],
}

// A plan but for its links: its counts, its kinds, its desks and its ways.
// A plan has these fields itself and no outline in it: the definitions and the theorems, as `ReadBack`, speak of a plan's own.
#[derive(Clone, Copy)]
pub struct Outline {
    pub n: usize,
    pub m: usize,
    pub a: usize,
    pub limit: usize,
    pub kind: [u8; 64],
    pub desk: [u8; 64],
    pub way: [u64; 16],
}

// The links of a plan, beside its outline: link i joins booking from[i] to booking to[i]. They are lent where a sheet is read, since a plan handed
// on by value would be copied at each step on its way.
// In two lists, as in a plan.
#[derive(Clone, Copy)]
pub struct Links {
    pub from: [u8; 512],
    pub to: [u8; 512],
}

impl Links {
    // No link yet.
    #[tactic(auto, unfolding(crate::specs::Links::no_links))]
    pub fn none() -> Links
        ensures { result ≡ empty_links }
    {
        Links {
            from: [0u8; 512],
            to: [0u8; 512],
        }
    }
}

// How many bookings, links and ways a caller takes at most.
#[derive(Clone, Copy)]
pub struct Limits {
    pub bookings: usize,
    pub links: usize,
    pub ways: usize,
}

// A link says that booking `from` comes before booking `to`. The links of a plan rise in this order; the default comes before them all.
#[derive(Clone, Copy, Default, PartialEq, Eq, PartialOrd, Ord, Debug)]
pub struct Link {
    pub from: usize,
    pub to: usize,
}

// What is wrong with a record: a count, or an entry that is out of sequence, out of range or no kind.
#[derive(Clone, Copy, PartialEq, Eq, Debug)]
pub enum RecordFault {
    Count,
    Sequence,
}

// What is wrong with a sheet, and at which line: a count past those that the caller takes, a line of another form, a count outside its limits, or a
// number out of sequence or range. In this order the faults of a head and those of a way are each in a row, so that they become these by a sum,
// and not by a table of constants, for which the gateway has no room.
#[derive(Clone, Copy, PartialEq, Eq, Debug)]
pub enum Fault {
    Oversize(usize),
    Form(usize),
    Count(usize),
    Sequence(usize),
}

impl Fault {
    // The number of the sheet's refusal. A byte, and a call: four bytes are told apart in a register. Four numbers of 32 bits would become a table
    // of constants, and the gateway has no room for tables.
    #[inline(never)]
    pub fn refusal(self) -> u8
        ensures { result ≡ fault_refusal self }
    {
        match self {
            Fault::Form(_) => 1,
            Fault::Count(_) => 2,
            Fault::Sequence(_) => 3,
            Fault::Oversize(_) => 16,
        }
    }

    // The line that is refused. An arm for each fault: the edit `line_forgotten` takes one of them.
    pub fn line(self) -> usize
        ensures { result ≡ fault_line self }
    {
        match self {
            Fault::Form(line) => line,
            Fault::Count(line) => line,
            Fault::Sequence(line) => line,
            Fault::Oversize(line) => line,
        }
    }
}

// The number of a sheet's refusal, 0 if there is none: a number and no Option, as the definition has it and the flights print it.
pub fn judged_refusal(judged: Result<(), Fault>) -> u32
    ensures { result ≡ judged_refusal judged }
{
    match judged {
        Ok(()) => 0,
        Err(fault) => u32::from(fault.refusal()),
    }
}

// The line that is refused, 0 if there is none.
pub fn judged_place(judged: Result<(), Fault>) -> usize
    ensures { result ≡ judged_place judged }
{
    match judged {
        Ok(()) => 0,
        Err(fault) => fault.line(),
    }
}

// Whether k is the letter of a kind.
#[tactic(auto, unfolding(crate::specs::Limits::is_kind))]
pub fn known_kind(k: u8) -> bool
    ensures { result ≡ is_kind k }
{
    matches!(k, b'C' | b'P' | b'R' | b'D')
}

// Whether lo <= x <= hi.
#[tactic(auto, unfolding(crate::specs::Limits::within))]
pub fn is_within(lo: usize, x: usize, hi: usize) -> bool
    ensures { result ≡ within lo x hi }
{
    (lo..=hi).contains(&x)
}

// The limits of every sheet and of every record.
#[tactic(auto, unfolding(crate::specs::Limits::ours))]
pub fn ours() -> Limits
    ensures { result ≡ ours }
{
    Limits {
        bookings: 64,
        links: 512,
        ways: 16,
    }
}

// Whether a caller with such limits takes n bookings, m links and a ways. No struct of the three: a plan, a head and the sums of two plans
// have them one by one, so each caller would make it for the call.
#[tactic(auto, unfolding(crate::specs::Limits::counted))]
pub fn are_counted(most: Limits, n: usize, m: usize, a: usize) -> bool
    ensures { result ≡ counted most n m a }
{
    is_within(1, n, most.bookings) && is_within(0, m, most.links) && is_within(1, a, most.ways)
}

// Whether the counts of bookings, links and ways, and what a desk may have open, are within the limits of a plan.
#[tactic(auto, unfolding(crate::specs::Limits::limits))]
pub fn in_limits(n: usize, m: usize, a: usize, limit: usize) -> bool
    ensures { result ≡ limits n m a limit }
{
    are_counted(ours(), n, m, a) && is_within(1, limit, 64)
}

// Whether d is the number of a desk.
#[tactic(auto, unfolding(crate::specs::Limits::is_desk))]
pub fn known_desk(d: usize) -> bool
    ensures { result ≡ is_desk d }
{
    is_within(1, d, 8)
}

// Whether a link joins bookings of n and comes after the last one.
#[tactic(auto, unfolding(crate::specs::Limits::in_sequence, crate::specs::Limits::rises))]
pub fn in_sequence(n: usize, last: Link, link: Link) -> bool
    ensures { result ≡ in_sequence n last.from last.to link.from link.to }
{
    is_within(1, link.from, n) && is_within(1, link.to, n) && last < link
}

// Whether k is the letter of a kind and d the number of a desk.
fn known_booking(k: u8, d: u8) -> bool
    ensures { result ≡ (is_kind k && is_desk d) }
{
    known_kind(k) && known_desk(d as usize)
}

// Whether each of the first n bookings has a kind and a desk.
fn bookings_known(n: usize, kind: &[u8; 64], desk: &[u8; 64]) -> bool
    requires { n ≤ most_bookings }
    ensures { result ≡ all (booking_at kind.now desk.now) n }
{
    kind[..n]
        .iter()
        .zip(&desk[..n])
        .all(|(kind, desk)| known_booking(*kind, *desk))
}

// Whether the first m links join bookings of n and rise strictly.
fn links_rise(n: usize, m: usize, from: &[u8; 512], to: &[u8; 512]) -> bool
    requires { m ≤ most_links }
    ensures { result ≡ all (link_at n from.now to.now) m }
{
    let mut last = Link::default();
    // by index: it names both ends of a link
    for i in 0..m {
        let link = Link {
            from: from[i] as usize,
            to: to[i] as usize,
        };
        if !in_sequence(n, last, link) {
            return false;
        }
        last = link;
    }
    true
}

// Whether x has 1 to n members.
fn has_count(x: u64, n: usize) -> bool
    ensures { result ≡ within 1 (size_of x) n }
{
    is_within(1, sets::size(x), n)
}

// Whether each of the first a ways has 1 to n bookings.
fn counts_fit(n: usize, a: usize, way: &[u64; 16]) -> bool
    requires { a ≤ most_ways }
    ensures { result ≡ all (count_at n way.now) a }
{
    way[..a].iter().all(|set| has_count(*set, n))
}

// Whether x has no member from n on.
fn is_below(x: u64, n: usize) -> bool
    requires { n ≤ most_bookings }
    ensures { result ≡ ltb x (2 ^ n) }
{
    n == 64 || x < sets::bit(n)
}

// Whether each of the first a ways has bookings of n alone.
fn ways_fit(n: usize, a: usize, way: &[u64; 16]) -> bool
    requires { (n ≤ most_bookings) × (a ≤ most_ways) }
    ensures { result ≡ all (within_at n way.now) a }
{
    way[..a].iter().all(|set| is_below(*set, n))
}

// Whether every count of p is within its limits.
#[tactic(auto, using(crate::proofs::LimitLaws::limited), unfolding(crate::specs::Record::counts_fit))]
fn record_counts(p: &Plan) -> bool
    ensures { result ≡ counts_fit p.now }
{
    in_limits(p.n, p.m, p.a, p.limit) && counts_fit(p.n, p.a, &p.way)
}

// Whether every entry of p is fine.
#[tactic(auto, unfolding(crate::specs::Record::entries_fit))]
fn record_entries(p: &Plan) -> bool
    requires { (p.now.n ≤ most_bookings) × (p.now.m ≤ most_links) × (p.now.a ≤ most_ways) }
    ensures { result ≡ entries_fit p.now }
{
    bookings_known(p.n, &p.kind, &p.desk)
        && links_rise(p.n, p.m, &p.from, &p.to)
        && ways_fit(p.n, p.a, &p.way)
}

// A plan from its outline and its links.
pub fn with_links(o: &Outline, links: &Links) -> Plan
    ensures { result ≡ plan_of o.now links.now.from links.now.to }
{
    Plan {
        n: o.n,
        m: o.m,
        a: o.a,
        limit: o.limit,
        kind: o.kind,
        desk: o.desk,
        from: links.from,
        to: links.to,
        way: o.way,
    }
}

// Judges a record: its counts, then its entries.
#[tactic(auto, using(crate::proofs::RecordLaws::fit_limited), unfolding(crate::specs::Record::record_of))]
pub fn judge(p: &Plan) -> Result<(), RecordFault>
    ensures { result ≡ record_of p.now }
{
    if !record_counts(p) {
        return Err(RecordFault::Count);
    }
    if !record_entries(p) {
        return Err(RecordFault::Sequence);
    }
    Ok(())
}
