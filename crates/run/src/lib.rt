// The run of a plan: its state, the next order, and what a desk's reply does. Both steps are handed how the bookings stand, so that
// a call looks at the codes once.
#![tactic(auto)]

ghost use Rattle.std.specs.Prelude.{◌≡◌, ◌≤◌, ◌<◌, length};
ghost use Rattle.bounded.specs.Bounded.{sought};
ghost use Rattle.standing.specs.Standing.{standing_of};
ghost use Rattle.run.specs.State.{put, start, standing};
ghost use Rattle.run.specs.Orders.{all_passed, to_return, to_request, next, order_of};
ghost use Rattle.run.specs.Replies.{settle, way_after, kept_of, reply};
ghost use Rattle.run.specs.Codes.{code_after};
ghost use Rattle.run.specs.Bytes.{bytes_of, run_of};

use network::{Chart, Network};
use standing::Standing;

// The current way, 0 while calling off, and for each of 64 bookings its code: the 65 bytes of the state that C lends.
// No bound in the type: any 65 bytes are a run until `is_sound` has judged them. How its bookings stand is not in it either: these are C's bytes.
#[derive(Clone, Copy)]
pub struct Run {
    pub way: u8,
    pub code: [u8; 64],
}

// What next order answers: bookings by index, a way by the number that the state holds.
#[derive(Clone, Copy)]
pub enum Order {
    Request(usize),
    Return(usize),
    Wait,
    Flown(u8),
    Off,
}

// An order, and the state after it.
#[derive(Clone, Copy)]
pub struct Ordered {
    pub order: Order,
    pub run: Run,
}

// Rule 2: the lowest booking to return; those at a full desk are passed over.
// A network and no chart, but for replies: each of these asks for one of the two bounds, and a chart would ask their callers for both.
fn to_return(g: &Network, full: u64, s: Standing, way: u64) -> Option<usize>
    requires { (g.now.n ≤ 64) × (full ≡ all_passed g.now s) }
    ensures { result ≡ sought (to_return g.now s way) 64 }
{
    let outside = sets::minus(s.held, way);
    if outside == 0 {
        return None;
    }
    let kept = standing::preceding(g, s.held | s.returning);
    sets::members_of(sets::minus(outside, kept | full)).next()
}

// Rule 4: the lowest booking to request; those at a full desk are passed over. Only the free bookings of the way are looked at, the
// lowest first; the cut keeps to bookings of the plan.
fn to_request(g: &Network, full: u64, s: Standing, way: u64) -> Option<usize>
    requires { (g.now.n ≤ 64) × (full ≡ all_passed g.now s) }
    ensures { result ≡ sought (to_request g.now s way) g.now.n }
{
    for b in sets::members_of(sets::minus(s.free & way & sets::all_below(g.n), full)) {
        if sets::subset(g.before[b], s.held) {
            return Some(b);
        }
    }
    None
}

// The order of rules 1 to 6, where the bookings stand so, those in full are at a full desk, and way w is current. It is worked out from
// the sets alone, so that a caller need not hand over the whole state.
#[tactic(auto, unfolding(crate::specs::Orders::order_of, crate::specs::Orders::ending, sets::specs::Sets::some))]
pub fn due_order(g: &Network, full: u64, s: Standing, w: u8) -> Order
    requires { (g.now.n ≤ 64) × (w ≤ 16) × (full ≡ all_passed g.now s) }
    ensures { result ≡ order_of g.now s w }
{
    let way = standing::way_of(g, w as usize);
    if s.lost_in(way) {
        return Order::Wait;
    }
    if let Some(x) = to_return(g, full, s, way) {
        return Order::Return(x);
    }
    if s.returning != 0 {
        return Order::Wait;
    }
    if let Some(y) = to_request(g, full, s, way) {
        return Order::Request(y);
    }
    if s.requested != 0 {
        return Order::Wait;
    }
    if w == 0 {
        return Order::Off;
    }
    Order::Flown(w)
}

// The current way after a Y or an N, by the sets alone; w was current. Where nothing is requested and that way has a lost booking, it is
// the first live way, or 0 if there is none: numbers and no Option, as the state that C lends holds them.
#[tactic(auto, unfolding(crate::specs::Replies::way_after, crate::specs::Replies::to_switch, sets::specs::Sets::some))]
pub fn way_after(g: &Network, s: Standing, w: u8) -> u8
    requires { (g.now.a ≤ 16) × (w ≤ 16) }
    ensures { result ≡ way_after g.now s w }
{
    if s.requested == 0 && s.lost_in(standing::way_of(g, w as usize)) {
        s.first_live(g)
    } else {
        w
    }
}

// The code that a reply gives a booking of this code, none where it does not fit. A refused booking is lost if it is exposed, else free, so
// that it is requested again.
#[tactic(auto, unfolding(crate::specs::Codes::code_after))]
pub fn code_after(code: u8, letter: u8, exposed: bool) -> Option<u8>
    ensures { result ≡ code_after code letter exposed }
{
    match (code, letter) {
        (standing::REQUESTED, b'Y') => Some(standing::HELD),
        (standing::REQUESTED, b'N') => Some(if exposed {
            standing::LOST
        } else {
            standing::FREE
        }),
        (standing::RETURNING, b'G') => Some(standing::FREE),
        (standing::RETURNING, b'K') => Some(standing::HELD),
        _ => None,
    }
}

impl Run {
    // At the start the way is 1 and all are free.
    #[tactic(auto, unfolding(crate::specs::State::start))]
    pub fn start() -> Run
        ensures { result ≡ start }
    {
        Run {
            way: 1,
            code: [standing::FREE; 64],
        }
    }

    // How the first n bookings stand.
    pub fn standing(self, n: usize) -> Standing
        requires { n ≤ 64 }
        ensures { result ≡ standing_of self.code n }
    {
        standing::look(&self.code[..n])
    }

    // The state with another code for booking b.
    fn put(mut self, b: usize, c: u8) -> Run
        requires { b < 64 }
        ensures { result ≡ put self b c }
    {
        self.code[b] = c;
        self
    }

    // The next order, and the state after it; s is how the bookings stand.
    pub fn next_order(self, g: &Network, s: Standing) -> Ordered
        requires { (g.now.n ≤ 64) × (self.way ≤ 16) × (s ≡ standing g.now self) }
        ensures { result ≡ next g.now self }
    {
        let full = desks::full(g.limit, &g.desk, s.matters());
        let order = due_order(g, full, s, self.way);
        let run = match order {
            Order::Request(y) => self.put(y, standing::REQUESTED),
            Order::Return(x) => self.put(x, standing::RETURNING),
            Order::Wait | Order::Flown(_) | Order::Off => self,
        };
        Ordered { order, run }
    }

    // What follows a Y or an N: the way may change.
    #[tactic(auto, unfolding(crate::specs::Replies::settle, crate::specs::Replies::way_after))]
    fn settle(mut self, g: &Network, s: Standing) -> Run
        requires { (g.now.a ≤ 16) × (self.way ≤ 16) × (s ≡ standing g.now self) }
        ensures { result ≡ settle g.now self }
    {
        self.way = way_after(g, s, self.way);
        self
    }

    // A Y or an N gives booking b the code c; then what follows. How the bookings stand is carried on, not looked up again.
    fn decided(self, chart: &Chart, s: Standing, b: usize, c: u8) -> Run
        requires { (self.way ≤ 16) × (s ≡ standing chart.now.network self) × (b < chart.now.network.n) }
        ensures { result ≡ settle chart.now.network (put self b c) }
    {
        let after = self.put(b, c);
        let moved = s.moved(sets::bit(b), c);
        after.settle(&chart.network, moved)
    }

    // A desk's reply about booking b: the state after it, or none where it does not fit; s is how the bookings stand.
    #[tactic(auto, unfolding(crate::specs::Replies::reply))]
    pub fn reply(self, chart: &Chart, s: Standing, letter: u8, b: usize) -> Option<Run>
        requires { (self.way ≤ 16) × (s ≡ standing chart.now.network self) }
        ensures { result ≡ kept_of (reply chart.now.network self letter b) }
    {
        if b >= chart.network.n {
            return None;
        }
        let old = self.code[b];
        let code = code_after(old, letter, sets::has(chart.network.exposed, b))?;
        if old == standing::REQUESTED {
            return Some(self.decided(chart, s, b, code));
        }
        Some(self.put(b, code))
    }
}

// The state that 65 bytes hold.
#[tactic(auto, unfolding(crate::specs::Bytes::run_of))]
pub fn load(s: &[u8]) -> Run
    requires { length s.now ≡ 65 }
    ensures { result ≡ run_of s.now }
{
    let mut code = [0u8; 64];
    code.copy_from_slice(&s[1..]);
    Run { way: s[0], code }
}

// The state laid into 65 lent bytes.
#[tactic(auto, unfolding(crate::specs::Bytes::bytes_of))]
pub fn store(r: &Run, s: &mut [u8])
    requires { length s.old ≡ 65 }
    ensures { s.new ≡ bytes_of r.now }
{
    s[0] = r.way;
    s[1..].copy_from_slice(&r.code);
}
