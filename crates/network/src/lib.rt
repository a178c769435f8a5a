// A plan as the rules look at it, its links closed to chains.
#![tactic(auto)]

ghost use Rattle.std.specs.Prelude.{◌≡◌, ◌≤◌, cond};
ghost use Rattle.std.specs.Int.Bits.{bit_or};
ghost use Rattle.sets.specs.Sets.{gather};
ghost use Rattle.plan.specs.Outline.{plan_of};
ghost use Rattle.network.specs.FromPlan.{is_firm, is_exposed, of_kind, direct_of, desks_of, network_of, Ends, Seated};

use plan::{Links, Outline};

// A plan as the rules see it. Booking number b is index b - 1 and bit b - 1 of every set; way[k] is way number k + 1.
// before[v] has all bookings that precede v, by one link or by a chain of links. desk[d] has the bookings of desk number d + 1; limit is how
// many matters a desk may have open. The counts stand beside arrays of full size, as in a plan: the definitions speak of each list, and a
// network is a fixed piece of memory.
#[derive(Clone, Copy)]
pub struct Network {
    pub n: usize,
    pub a: usize,
    pub way: [u64; 16],
    pub before: [u64; 64],
    pub firm: u64,
    pub exposed: u64,
    pub desk: [u64; 8],
    pub limit: usize,
}

// A network within the limits of every plan.
#[derive(Clone, Copy)]
pub struct Chart {
    pub network: Network,
    ghost few_bookings: { network.n ≤ 64 },
    ghost few_ways: { network.a ≤ 16 },
}

// The bookings that stay once they are held, and those that can be refused for good.
#[derive(Clone, Copy)]
struct Kinds {
    firm: u64,
    exposed: u64,
}

impl Kinds {
    // With the bookings b, which are of kind k: C is exposed, R is firm, P is both, and D neither.
    #[tactic(auto, unfolding(crate::specs::FromPlan::one_of))]
    fn with(self, k: u8, b: u64) -> Kinds
        ensures firm { result.firm ≡ cond (is_firm k) (bit_or self.firm b) self.firm }
        ensures exposed { result.exposed ≡ cond (is_exposed k) (bit_or self.exposed b) self.exposed }
    {
        let Kinds { firm, exposed } = self;
        match k {
            b'C' => Kinds {
                firm,
                exposed: exposed | b,
            },
            b'P' => Kinds {
                firm: firm | b,
                exposed: exposed | b,
            },
            b'R' => Kinds {
                firm: firm | b,
                exposed,
            },
            _ => self,
        }
    }
}

// The first n bookings by their kinds.
fn kinds_of(kind: &[u8; 64], n: usize) -> Kinds
    requires { n ≤ 64 }
    ensures { (result.firm ≡ gather (of_kind is_firm kind.now) n) × (result.exposed ≡ gather (of_kind is_exposed kind.now) n) }
{
    let mut kinds = Kinds {
        firm: 0,
        exposed: 0,
    };
    for (b, kind) in kind[..n].iter().enumerate() {
        kinds = kinds.with(*kind, sets::bit(b));
    }
    kinds
}

// The direct predecessors of each booking, by the first m links.
fn direct(links: &Links, m: usize) -> [u64; 64]
    requires { Ends 64 links.now.from links.now.to m }
    ensures { result ≡ direct_of links.now.from links.now.to m }
{
    let mut d = [0u64; 64];
    // by index: it names an end of the same link in each array, as the definition does
    for i in 0..m {
        d[links.to[i] as usize - 1] |= sets::bit(links.from[i] as usize - 1);
    }
    d
}

// The first n bookings by their desks.
fn desks_of(desk: &[u8; 64], n: usize) -> [u64; 8]
    requires { (n ≤ 64) × Seated n desk.now }
    ensures { result ≡ desks_of desk.now n }
{
    let mut at = [0u64; 8];
    for (b, desk) in desk[..n].iter().enumerate() {
        at[*desk as usize - 1] |= sets::bit(b);
    }
    at
}

// What the rules look at in a plan, whose links stand beside it. A function of its own in the archives: put into its callers, their stack held its lists too.
#[inline(never)]
pub fn network_of(o: &Outline, links: &Links) -> Network
    requires { (o.now.n ≤ 64) × Ends o.now.n links.now.from links.now.to o.now.m × Seated o.now.n o.now.desk }
    ensures { result ≡ network_of (plan_of o.now links.now.from links.now.to) }
{
    let Kinds { firm, exposed } = kinds_of(&o.kind, o.n);
    let linked = direct(links, o.m);
    let before = precedence::closure(linked, o.n);
    Network {
        n: o.n,
        a: o.a,
        way: o.way,
        before,
        firm,
        exposed,
        desk: desks_of(&o.desk, o.n),
        limit: o.limit,
    }
}
