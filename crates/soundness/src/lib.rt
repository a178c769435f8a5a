// Whether a state is sound: a test for each sentence of the rule, on how the bookings stand. The sentences are defined in crate run.
#![tactic(auto)]

ghost use Rattle.std.specs.Prelude.{◌≡◌, ◌&&◌, ◌≤◌};
ghost use Rattle.bounded.specs.Bounded.{all};
ghost use Rattle.run.specs.State.{standing};
ghost use Rattle.run.specs.Sound.{code_known, codes_known, way_known, rest_zero, all_founded, returning_outside, quiet, ways_before, passed_over, earlier_dead, desks_kept, lost_pending, sound};
ghost use Rattle.soundness.specs.Parts.{grounds_hold, change_holds, rest_holds, stands_soundly};

use network::{Chart, Network};
use run::Run;
use standing::Standing;

// The first n codes are at most 4.
fn codes_known(r: &Run, n: usize) -> bool
    requires { n ≤ 64 }
    ensures { result ≡ all (code_known r.now) n }
{
    r.code[..n].iter().all(|code| *code <= standing::RETURNING)
}

// Bytes past n are zero.
fn rest_zero(chart: &Chart, r: &Run) -> bool
    ensures { result ≡ rest_zero chart.now.network r.now }
{
    r.code[chart.network.n..]
        .iter()
        .all(|code| *code == standing::FREE)
}

// What a state must be before its sets are looked at: known codes, a known way, and nothing past n.
fn is_formed(chart: &Chart, r: &Run) -> bool
    ensures { result ≡ (codes_known r.now && (way_known chart.now.network r.now && rest_zero chart.now.network r.now)) }
{
    let g = &chart.network;
    r.way as usize <= g.a && rest_zero(chart, r) && codes_known(r, g.n)
}

// Requested, held and returning bookings have all predecessors held.
fn all_founded(chart: &Chart, s: Standing) -> bool
    ensures { result ≡ all_founded chart.now.network s }
{
    let active = s.requested | (s.held | s.returning);
    sets::subset(standing::preceding(&chart.network, active), s.held)
}

// Returning ones are C or D, so not firm, and outside the current way.
fn returning_outside(g: &Network, s: Standing, way: u64) -> bool
    ensures { result ≡ returning_outside g.now s way }
{
    sets::disjoint(s.returning, g.firm | way)
}

// A held booking outside the current way, or a returning one, means none is requested.
fn quiet(s: Standing, way: u64) -> bool
    ensures { result ≡ quiet s way }
{
    s.requested == 0 || sets::subset(s.held, way) && s.returning == 0
}

// How many ways stand before way w: all for 0.
pub fn ways_before(g: &Network, w: usize) -> usize
    ensures { result ≡ ways_before g.now w }
{
    if w == 0 { g.a } else { w - 1 }
}

// None of the first k ways is live.
fn none_live(g: &Network, s: Standing, k: usize) -> bool
    requires { k ≤ 16 }
    ensures { result ≡ all (passed_over g.now s) k }
{
    g.way[..k].iter().all(|way| !s.is_live(g, *way))
}

// Every way before way w (all ways, for 0) is not live.
fn earlier_dead(chart: &Chart, s: Standing, w: usize) -> bool
    requires { w ≤ 16 }
    ensures { result ≡ earlier_dead chart.now.network s w }
{
    let g = &chart.network;
    none_live(g, s, ways_before(g, w))
}

// A lost booking in the current way has its predecessors held, and something is requested.
fn lost_pending(chart: &Chart, s: Standing, way: u64) -> bool
    ensures { result ≡ lost_pending chart.now.network s way }
{
    let g = &chart.network;
    !s.lost_in(way)
        || s.requested != 0 && sets::subset(standing::preceding(g, s.lost & way), s.held)
}

// No desk has more matters open than the limit.
fn desks_kept(g: &Network, s: Standing) -> bool
    ensures { result ≡ desks_kept g.now s }
{
    desks::all_in_limit(g.limit, &g.desk, s.matters())
}

// Requested, held and returning bookings stand on held ones, lost ones are exposed, requested ones in the current way.
fn grounds_hold(chart: &Chart, s: Standing, way: u64) -> bool
    ensures { result ≡ grounds_hold chart.now.network s way }
{
    let g = &chart.network;
    all_founded(chart, s) && sets::subset(s.lost, g.exposed) && sets::subset(s.requested, way)
}

// What is returned is outside the way, which has come after no live one, where way w is current.
fn change_holds(chart: &Chart, s: Standing, w: usize, way: u64) -> bool
    requires { w ≤ 16 }
    ensures { result ≡ change_holds chart.now.network s w way }
{
    returning_outside(&chart.network, s, way) && quiet(s, way) && earlier_dead(chart, s, w)
}

// Held firm bookings are in the current way (none for 0), no desk is over its limit, and a lost booking leads on.
fn rest_holds(chart: &Chart, s: Standing, way: u64) -> bool
    ensures { result ≡ rest_holds chart.now.network s way }
{
    let g = &chart.network;
    sets::subset(s.held & g.firm, way) && desks_kept(g, s) && lost_pending(chart, s, way)
}

// What is asked of how the bookings stand, where way w is current.
fn stands_soundly(chart: &Chart, s: Standing, w: usize) -> bool
    requires { w ≤ 16 }
    ensures { result ≡ stands_soundly chart.now.network s w }
{
    let way = standing::way_of(&chart.network, w);
    grounds_hold(chart, s, way) && change_holds(chart, s, w, way) && rest_holds(chart, s, way)
}

// Whether the state is sound; s is how its bookings stand.
pub fn is_sound(chart: &Chart, r: &Run, s: Standing) -> bool
    requires { s ≡ standing chart.now.network r.now }
    ensures { result ≡ sound chart.now.network r.now }
{
    is_formed(chart, r) && stands_soundly(chart, s, r.way as usize)
}
