// Orders and replies taken in the state's lent bytes: a line of a journal or of a block changes one byte of a booking, and the way's byte
// where the way changes. How the bookings stand is handed in and handed on, so that a line costs little.
#![tactic(auto)]

ghost use Rattle.std.specs.Prelude.{◌≡◌, false, ◌&&◌, suc, ◌+◌, ◌≤◌, ◌<◌, ◌^◌, eqb, length};
ghost use Rattle.run.specs.Bytes.{bytes_of, run_of};
ghost use Rattle.guarantee.specs.Machine.{reply_to};
ghost use Rattle.lent_state.specs.Codes.{followed, stood_by};
ghost use Rattle.lent_state.specs.Stands.{Stands};
ghost use Rattle.lent_state.specs.Due.{code_due, order_line};
ghost use Rattle.lent_state.specs.Lines.{line_by, line_told, fault_number, taken_of};

use event_lines::Event;
use network::Chart;
use run::Order;
use standing::Standing;

// What is wrong with a line that is not taken.
#[derive(Clone, Copy, PartialEq, Eq, Debug)]
pub enum LineFault {
    Misformed,
    Unfit,
}

impl LineFault {
    // The number of its refusal.
    #[tactic(auto, unfolding(crate::specs::Lines::fault_number))]
    pub fn refusal(self) -> u32
        ensures { result ≡ fault_number self }
    {
        match self {
            LineFault::Misformed => 1,
            LineFault::Unfit => 9,
        }
    }
}

// Lines taken: how many are kept, and what is wrong with the next one, if there is one.
// No Result: how many are kept is told where the next line is wrong too, as the clause of `take_lines` says.
#[derive(Clone, Copy)]
pub struct Taken {
    pub kept: usize,
    pub fault: Option<LineFault>,
}

// ---- an order

// Whether a line's letter and booking are those of an order for index x.
fn names(event: Event, of: u8, x: usize) -> bool
    ensures { result ≡ (eqb event.letter of && eqb event.booking (suc x)) }
{
    event.letter == of && event.index() == Some(x)
}

// The code that an order's line gives its booking, none where it is not the order that is due.
#[tactic(auto, unfolding(crate::specs::Due::code_due))]
fn code_due(order: Order, event: Event) -> Option<u8>
    ensures { result ≡ code_due event.letter event.booking order }
{
    match order {
        Order::Request(x) => names(event, b'Q', x).then_some(standing::REQUESTED),
        Order::Return(x) => names(event, b'U', x).then_some(standing::RETURNING),
        Order::Wait | Order::Flown(_) | Order::Off => None,
    }
}

// Takes an order's line in the state's bytes: it must be the order that is due. Gives how the bookings stand then, none where it is not taken.
fn take_order(chart: &Chart, s: Standing, event: Event, state: &mut [u8]) -> Option<Standing>
    requires { Stands chart.now.network s state.old }
    ensures told { result ≡ stood_by chart.now.network (order_line chart.now.network (run_of state.old) event.letter event.booking) }
    ensures left { state.new ≡ bytes_of (order_line chart.now.network (run_of state.old) event.letter event.booking).run }
{
    let index = event.index()?;
    let g = &chart.network;
    let full = desks::full(g.limit, &g.desk, s.matters());
    let order = run::due_order(g, full, s, state[0]);
    let code = code_due(order, event)?;
    state[event.booking as usize] = code;
    Some(s.moved(sets::bit(index), code))
}

// ---- a reply

// What follows a reply to a booking that had this code, in the state's bytes: after a Y or an N the way may change.
fn follow(chart: &Chart, s: Standing, old: u8, state: &mut [u8])
    requires { Stands chart.now.network s state.old }
    ensures { state.new ≡ bytes_of (followed chart.now.network old (run_of state.old)) }
{
    if old == standing::RETURNING {
        return;
    }
    state[0] = run::way_after(&chart.network, s, state[0]);
}

// Takes a reply in the state's bytes. Gives how the bookings stand then, none where it does not fit.
fn take_reply(chart: &Chart, s: Standing, event: Event, state: &mut [u8]) -> Option<Standing>
    requires { Stands chart.now.network s state.old }
    ensures told { result ≡ stood_by chart.now.network (reply_to chart.now.network (run_of state.old) event.letter event.booking) }
    ensures left { state.new ≡ bytes_of (reply_to chart.now.network (run_of state.old) event.letter event.booking).run }
{
    let g = &chart.network;
    let index = event.index()?;
    if index >= g.n {
        return None;
    }
    let place = event.booking as usize;
    let old = state[place];
    let code = run::code_after(old, event.letter, sets::has(g.exposed, index))?;
    state[place] = code;
    let moved = s.moved(sets::bit(index), code);
    follow(chart, moved, old, state);
    Some(moved)
}

// ---- lines

// Takes a line: a reply or, where orders are taken too and it has an order's letter, the order that is due.
fn take_event(
    chart: &Chart,
    s: Standing,
    orders: bool,
    event: Event,
    state: &mut [u8],
) -> Option<Standing>
    requires { Stands chart.now.network s state.old }
    ensures told { result ≡ stood_by chart.now.network (line_by orders chart.now.network (run_of state.old) (Some event)) }
    ensures left { state.new ≡ bytes_of (line_by orders chart.now.network (run_of state.old) (Some event)).run }
{
    if orders && event_lines::is_order(event.letter) {
        take_order(chart, s, event, state)
    } else {
        take_reply(chart, s, event, state)
    }
}

// Takes what a line holds. Gives how the bookings stand then, or what is wrong with the line.
fn take_line(
    chart: &Chart,
    s: Standing,
    orders: bool,
    line: Option<Event>,
    state: &mut [u8],
) -> Result<Standing, LineFault>
    requires { Stands chart.now.network s state.old }
    ensures told { result ≡ line_told orders chart.now.network (run_of state.old) line }
    ensures left { state.new ≡ bytes_of (line_by orders chart.now.network (run_of state.old) line).run }
{
    let event = line.ok_or(LineFault::Misformed)?;
    take_event(chart, s, orders, event, state).ok_or(LineFault::Unfit)
}

// Takes whole lines one after the other, up to the first bad one: those of a block, which are replies, and those of a journal, which has orders
// too. They share one loop, told by a flag and no closure or type, so that the compiler has one copy of a line's steps and puts them into it:
// two loops took 237 instructions for a line of a journal, this one 91 (docs/DECISIONS.md).
// The state stays a slice of 65: C lends bytes, and whoever takes a campaign up judges how many there are.
pub fn take_lines(chart: &Chart, s: Standing, lines: &[u8], orders: bool, state: &mut [u8]) -> Taken
    requires { Stands chart.now.network s state.old }
    ensures told { (result.kept ≡ (taken_of orders chart.now.network (run_of state.old) lines.now).kept)
        × (result.fault ≡ (taken_of orders chart.now.network (run_of state.old) lines.now).fault) }
    ensures left { state.new ≡ bytes_of (taken_of orders chart.now.network (run_of state.old) lines.now).run }
{
    let mut standing = s;
    let mut kept = 0;
    for line in journal::lines(lines) {
        match take_line(chart, standing, orders, line, state) {
            Ok(moved) => standing = moved,
            Err(fault) => {
                return Taken {
                    kept,
                    fault: Some(fault),
                };
            }
        }
        kept += 1;
    }
    Taken { kept, fault: None }
}
