// The check of a network: refusals 4 to 8.
#![tactic(auto)]

ghost use Rattle.std.specs.Prelude.{◌≡◌, true, ◌&&◌, ℕ, suc, ◌<◌, length, get_or};
ghost use Rattle.std.specs.Int.Bits.{bit_and};
ghost use Rattle.bounded.specs.Bounded.{any, sought};
ghost use Rattle.sets.specs.Sets.{member, gather, all_below, subset_of};
ghost use Rattle.network.specs.Network.{in_way, exposed};
ghost use Rattle.verdict.specs.Check.{circular, unclosed, used_by, unused, repeated, staying, settled_by, later_refuge, stranding, first_stranding, check, verdict_number, verdict_place};
ghost use Rattle.verdict.specs.Parts.{TakenFrom, SpansOf, shelters};

use network::Chart;

// The first fault of a network and where it is, bookings by index and ways by number. Those that name a booking stand together, and those that
// name a way: a match over them has three outcomes then, and five would become a table of jumps.
#[derive(Clone, Copy, PartialEq, Eq, Debug)]
pub enum Fault {
    Circular(usize),
    Unused(usize),
    Unclosed(usize),
    Repeated(usize),
    Stranding(usize, usize),
}

impl Fault {
    // The number of the refusal: a byte, as that of a sheet's.
    #[inline(never)]
    #[tactic(auto, unfolding(crate::specs::Check::verdict_number))]
    pub fn refusal(self) -> u8
        ensures { result ≡ verdict_number (Err self) }
    {
        match self {
            Fault::Circular(_) => 4,
            Fault::Unclosed(_) => 5,
            Fault::Unused(_) => 6,
            Fault::Repeated(_) => 7,
            Fault::Stranding(_, _) => 8,
        }
    }

    // Its place: a booking's number, a way's, or way × 256 + booking.
    #[tactic(auto, unfolding(crate::specs::Check::verdict_place))]
    pub fn place(self) -> usize
        requires { verdict_place (Err self) < 65536 }
        ensures { result ≡ verdict_place (Err self) }
    {
        match self {
            Fault::Circular(b) | Fault::Unused(b) => b + 1,
            Fault::Unclosed(w) | Fault::Repeated(w) => w,
            Fault::Stranding(w, b) => w * 256 + b + 1,
        }
    }
}

// For each booking: in upto itself and all that precede it; in stay the firm bookings that may be held still when it is lost. Both serve
// all ways.
// `SpansOf` stays a clause: it speaks of the chart too, which would have to be lent into the struct for a ghost field, for three clauses.
#[derive(Clone, Copy)]
struct Spans {
    upto: [u64; 64],
    stay: [u64; 64],
}

// 4: the lowest booking that precedes itself.
fn lowest_circular(chart: &Chart) -> Option<usize>
    ensures { result ≡ sought (circular chart.now.network) chart.now.network.n }
{
    let g = &chart.network;
    (0..g.n).find(|b| sets::has(g.before[*b], *b))
}

// Whether way k + 1 has a booking but not all that precede it. Those below n are looked at, as the set may have others.
fn is_unclosed(chart: &Chart, k: usize) -> bool
    requires { k < chart.now.network.a }
    ensures { result ≡ unclosed chart.now.network k }
{
    let g = &chart.network;
    let here = g.way[k];
    for v in sets::members_of(here & sets::all_below(g.n)) {
        if !sets::subset(g.before[v], here) {
            return true;
        }
    }
    false
}

// 5: the first such way, by index.
fn first_unclosed(chart: &Chart) -> Option<usize>
    ensures { result ≡ sought (unclosed chart.now.network) chart.now.network.a }
{
    (0..chart.network.a).find(|k| is_unclosed(chart, *k))
}

// The bookings of all ways.
fn used(chart: &Chart) -> u64
    ensures { (b : ℕ) → member result b ≡ any (used_by chart.now.network b) chart.now.network.a }
{
    let g = &chart.network;
    g.way[..g.a].iter().fold(0, |all, way| all | *way)
}

// 6: the lowest booking in no way.
fn lowest_unused(chart: &Chart) -> Option<usize>
    ensures { result ≡ sought (unused chart.now.network) chart.now.network.n }
{
    let used = used(chart);
    (0..chart.network.n).find(|b| !sets::has(used, *b))
}

// Whether way k + 1 equals an earlier one.
fn is_repeated(chart: &Chart, k: usize) -> bool
    requires { k < chart.now.network.a }
    ensures { result ≡ repeated chart.now.network k }
{
    let ways = &chart.network.way;
    let here = ways[k];
    ways[..k].iter().any(|way| *way == here)
}

// 7: the first such way, by index.
fn first_repeated(chart: &Chart) -> Option<usize>
    ensures { result ≡ sought (repeated chart.now.network) chart.now.network.a }
{
    (0..chart.network.a).find(|k| is_repeated(chart, *k))
}

// Takes b out of the set of each member of up.
fn take_from_members(stay: &mut [u64; 64], up: u64, b: u64)
    requires { length stay.old ≡ 64 }
    ensures { TakenFrom stay.old up b stay.new }
{
    for x in sets::members_of(up) {
        stay[x] = sets::minus(stay[x], b);
    }
}

// For each booking all firm ones.
fn firm_for_each(chart: &Chart, stay: &mut [u64; 64])
    ensures size { length stay.new ≡ 64 }
    ensures firm { (x : ℕ) → x < chart.now.network.n → get_or stay.new x 0 ≡ bit_and chart.now.network.firm (all_below chart.now.network.n) }
{
    let g = &chart.network;
    stay[..g.n].fill(g.firm & sets::all_below(g.n));
}

impl Spans {
    // Fills both lists, in place: given back they would be copied. A firm booking is taken out where it may not stay, and not put in where it may, as of
    // two bookings at most one precedes the other.
    fn find(&mut self, chart: &Chart)
        ensures { SpansOf chart.now.network self.new }
    {
        let g = &chart.network;
        firm_for_each(chart, &mut self.stay);
        // by index: it names a booking in two arrays, and in the set of the firm ones
        for s in 0..g.n {
            let b = sets::bit(s);
            let up = g.before[s] | b;
            self.upto[s] = up;
            if sets::has(g.firm, s) {
                take_from_members(&mut self.stay, up, b);
            }
        }
    }

    // The bookings that precede x, or equal or precede every member of S, which is s.
    fn settled_by(&self, chart: &Chart, k: usize, x: usize, s: u64) -> u64
        requires { SpansOf chart.now.network self.now × (x < chart.now.network.n) × (s ≡ staying chart.now.network (suc k) x) }
        ensures { result ≡ gather (settled_by chart.now.network (suc k) x) 64 }
    {
        let mut r = sets::all_below(64);
        for i in sets::members_of(s) {
            r &= self.upto[i];
        }
        chart.network.before[x] | r
    }

    // Whether x, an exposed booking of way k + 1, leaves something firm behind with no later way to go to.
    fn is_stranding(&self, chart: &Chart, k: usize, x: usize) -> bool
        requires { SpansOf chart.now.network self.now × (k < chart.now.network.a) × (x < chart.now.network.n) × (exposed chart.now.network x ≡ true) × (in_way chart.now.network (suc k) x ≡ true) }
        ensures { result ≡ stranding chart.now.network (suc k) x }
    {
        let s = self.stay[x] & chart.network.way[k];
        if s == 0 {
            return false;
        }
        let settled = self.settled_by(chart, k, x, s);
        !has_refuge(chart, k, s, settled)
    }

    // The lowest booking of way k + 1 that strands. Only exposed ones can; those below n are tried, as the sets may have others.
    fn lowest_stranding(&self, chart: &Chart, k: usize) -> Option<usize>
        requires { SpansOf chart.now.network self.now × (k < chart.now.network.a) }
        ensures { result ≡ sought (stranding chart.now.network (suc k)) chart.now.network.n }
    {
        let g = &chart.network;
        for x in sets::members_of(g.exposed & g.way[k] & sets::all_below(g.n)) {
            if self.is_stranding(chart, k, x) {
                return Some(x);
            }
        }
        None
    }
}

// Whether a way has all of s, and none of the exposed bookings outside ok.
fn is_refuge(exposed: u64, s: u64, ok: u64, way: u64) -> bool
    ensures { result ≡ (subset_of s way && subset_of (bit_and exposed way) ok) }
{
    sets::subset(s, way) && sets::subset(exposed & way, ok)
}

// Whether a way after way k + 1 is a refuge, for S, which is s, and the settled bookings.
fn has_refuge(chart: &Chart, k: usize, s: u64, settled: u64) -> bool
    requires { k < chart.now.network.a }
    ensures { result ≡ any (shelters s settled chart.now.network.exposed chart.now.network.way (suc k)) chart.now.network.a }
{
    let g = &chart.network;
    let exposed = g.exposed;
    g.way[k + 1..g.a]
        .iter()
        .any(|way| is_refuge(exposed, s, settled, *way))
}

// 8: the first way in which some booking strands, and the lowest such booking.
fn first_stranding(chart: &Chart) -> Result<(), Fault>
    ensures { result ≡ first_stranding chart.now.network }
{
    if chart.network.firm == 0 {
        return Ok(());
    }
    let mut spans = Spans {
        upto: [0; 64],
        stay: [0; 64],
    };
    spans.find(chart);
    for k in 0..chart.network.a {
        if let Some(x) = spans.lowest_stranding(chart, k) {
            return Err(Fault::Stranding(k + 1, x));
        }
    }
    Ok(())
}

// The check: the first fault, in the order of the refusals. A function of its own in the archives, for the stack, as `network_of` is.
#[inline(never)]
pub fn check(chart: &Chart) -> Result<(), Fault>
    ensures { result ≡ check chart.now.network }
{
    if let Some(b) = lowest_circular(chart) {
        return Err(Fault::Circular(b));
    }
    if let Some(k) = first_unclosed(chart) {
        return Err(Fault::Unclosed(k + 1));
    }
    if let Some(b) = lowest_unused(chart) {
        return Err(Fault::Unused(b));
    }
    if let Some(k) = first_repeated(chart) {
        return Err(Fault::Repeated(k + 1));
    }
    first_stranding(chart)
}
