// How the bookings of a plan stand: a look at the codes of a state gives the set of each code, and the rules ask these sets.
#![tactic(auto)]

ghost use Rattle.std.specs.Prelude.{◌≡◌, ◌≤◌, cond, length};
ghost use Rattle.std.specs.Int.Bits.{bit_or};
ghost use Rattle.network.specs.Network.{way_of};
ghost use Rattle.standing.specs.Standing.{placed, matters, moved, standing_of};
ghost use Rattle.standing.specs.Ways.{preceding, lost_in, live, first_live};

use network::Network;

// The codes of a booking. They stay bytes and become no enum, as the state that C lends holds them.
pub const FREE: u8 = 0;

pub const REQUESTED: u8 = 1;

pub const HELD: u8 = 2;

pub const LOST: u8 = 3;

pub const RETURNING: u8 = 4;

// The bookings of a plan by their code.
#[derive(Clone, Copy)]
pub struct Standing {
    pub free: u64,
    pub requested: u64,
    pub held: u64,
    pub lost: u64,
    pub returning: u64,
}

// The set s with the set b put in, or taken out.
#[tactic(auto, unfolding(crate::specs::Standing::placed))]
fn placed(here: bool, s: u64, b: u64) -> u64
    ensures { result ≡ placed here s b }
{
    if here { s | b } else { sets::minus(s, b) }
}

impl Standing {
    // The same with the bookings b under code c.
    pub fn moved(self, b: u64, c: u8) -> Standing
        ensures { result ≡ moved self b c }
    {
        Standing {
            free: placed(c == FREE, self.free, b),
            requested: placed(c == REQUESTED, self.requested, b),
            held: placed(c == HELD, self.held, b),
            lost: placed(c == LOST, self.lost, b),
            returning: placed(c == RETURNING, self.returning, b),
        }
    }

    // The open matters: what is requested or returning.
    #[tactic(auto, unfolding(crate::specs::Standing::matters))]
    pub fn matters(self) -> u64
        ensures { result ≡ matters self }
    {
        self.requested | self.returning
    }

    // Whether the way has a lost booking.
    #[tactic(auto, unfolding(crate::specs::Ways::lost_in))]
    pub fn lost_in(self, way: u64) -> bool
        ensures { result ≡ lost_in self way }
    {
        !sets::disjoint(way, self.lost)
    }

    // Whether the way has no lost booking and has every held firm one.
    #[tactic(auto, unfolding(crate::specs::Ways::live, crate::specs::Ways::held_firm))]
    pub fn is_live(self, g: &Network, way: u64) -> bool
        ensures { result ≡ live g.now self way }
    {
        !self.lost_in(way) && sets::subset(self.held & g.firm, way)
    }

    // The first live way, or 0 if there is none: a number and no Option, as the state that C lends holds it.
    pub fn first_live(self, g: &Network) -> u8
        requires { g.now.a ≤ 16 }
        ensures { result ≡ first_live g.now self }
    {
        match g.way[..g.a].iter().position(|way| self.is_live(g, *way)) {
            Some(k) => k as u8 + 1,
            None => 0,
        }
    }
}

// The set s, with the set b where it is here.
fn joined(s: u64, here: bool, b: u64) -> u64
    ensures { result ≡ cond here (bit_or s b) s }
{
    if here { s | b } else { s }
}

// One look at the codes: how the bookings stand that have them. Each booking is looked at once, so it is put into its set and taken out of none.
pub fn look(codes: &[u8]) -> Standing
    requires { length codes.now ≤ 64 }
    ensures { result ≡ standing_of codes.now (length codes.now) }
{
    let mut s = Standing {
        free: 0,
        requested: 0,
        held: 0,
        lost: 0,
        returning: 0,
    };
    for (i, code) in codes.iter().enumerate() {
        let b = sets::bit(i);
        s.free = joined(s.free, *code == FREE, b);
        s.requested = joined(s.requested, *code == REQUESTED, b);
        s.held = joined(s.held, *code == HELD, b);
        s.lost = joined(s.lost, *code == LOST, b);
        s.returning = joined(s.returning, *code == RETURNING, b);
    }
    s
}

// The bookings of way w; no way has none. No way is number 0 and no None, as the state that C lends holds it.
#[tactic(auto, unfolding(network::specs::Network::way_of))]
pub fn way_of(g: &Network, w: usize) -> u64
    requires { w ≤ 16 }
    ensures { result ≡ way_of g.now w }
{
    if w == 0 { 0 } else { g.way[w - 1] }
}

// The bookings that precede some member of s. Only the members are looked at; the cut keeps to bookings of the plan.
pub fn preceding(g: &Network, s: u64) -> u64
    requires { g.now.n ≤ 64 }
    ensures { result ≡ preceding g.now s }
{
    let mut r = 0u64;
    for v in sets::members_of(s & sets::all_below(g.n)) {
        r |= g.before[v];
    }
    r
}
