// What the calls for C do: check, start, next order and reply on lent bytes, each answered in 32 bits. Crate campaign has them under their names
// for C and crate campaign_c exports them; crate partner has the check with smaller limits.
#![tactic(auto)]

ghost use Rattle.std.specs.Prelude.{◌≡◌, true, ◌≤◌, ◌<◌, IfErr, MatchResult};
ghost use Rattle.plan.specs.Limits.{ours};
ghost use Rattle.plan.specs.Links.{empty_links};
ghost use Rattle.sheet.specs.Outlined.{links_read};
ghost use Rattle.run.specs.State.{standing};
ghost use Rattle.run.specs.Replies.{kept_of};
ghost use Rattle.verdict.specs.Check.{verdict_place};
ghost use Rattle.guarantee.specs.Answers.{pack, order_bits, place9, check_bits};
ghost use Rattle.guarantee.specs.Machine.{next_order, replied, reply_to};
ghost use Rattle.calls.specs.Calls.{network_within, network_in, sheet_passes, passes_within, check_within, order_kind, order_booking, order_way, order_place, check_call, start_call, start_leaves, asked_call, asked_leaves};
ghost use Rattle.calls.specs.declared.Refusal.TheVariants.{Sheet, Plan};
ghost use Rattle.calls.specs.Refusals.{refusal_bits, refusal_place, own_bits, answer_bits, Answers, Refused, Judges, SheetRead, PlanRead, Plans, Takes};

use network::{Chart, Network};
use plan::{Limits, Links, Outline};
use run::{Order, Run};
use standing::Standing;

// Why a call is refused: refusals 1 to 3 and 16 of a sheet, 4 to 8 of its plan, 11, 10, and 9 of a reply about this booking. In this order a
// match that treats some alike, as `bits` and `own_bits` do, has three outcomes, and no table of jumps is made of it.
#[derive(Clone, Copy, PartialEq, Eq, Debug)]
pub enum Refusal {
    Sheet(plan::Fault),
    Plan(verdict::Fault),
    State,
    Room,
    Reply(u32),
}

impl From<plan::Fault> for Refusal {
    ghost from_gives = { λ fault refusal. refusal ≡ Sheet fault };

    fn from(fault: plan::Fault) -> Refusal {
        Refusal::Sheet(fault)
    }
}

impl From<verdict::Fault> for Refusal {
    ghost from_gives = { λ fault refusal. refusal ≡ Plan fault };

    fn from(fault: verdict::Fault) -> Refusal {
        Refusal::Plan(fault)
    }
}

// A sheet that reads: what the rules look at, and what the check says of it. No Result around both: a plan that the check refuses has its chart too.
#[derive(Clone, Copy)]
pub struct Checked {
    pub chart: Chart,
    pub verdict: Result<(), verdict::Fault>,
}

// The same, and its plan but for the links: a join takes the outline of a plan that is refused with 8.
#[derive(Clone, Copy)]
pub struct Planned {
    pub outline: Outline,
    pub chart: Chart,
    pub verdict: Result<(), verdict::Fault>,
}

// A campaign taken up for a step: its sheet passes and its state is sound.
#[derive(Clone, Copy)]
pub struct Campaign {
    pub chart: Chart,
    pub run: Run,
    pub standing: Standing,
}

// ---- answers as 32 bits

// The numbers of a kind and of a refusal are C's, which are given in its header, so they are numbers here too.
#[tactic(auto, unfolding(guarantee::specs::Answers::pack))]
pub fn pack(kind: u32, refusal: u32, place: usize) -> u32
    requires { (kind ≤ 6) × (refusal ≤ 255) × (place < 65536) }
    ensures { result ≡ pack kind refusal place }
{
    kind * 16777216 + refusal * 65536 + place as u32
}

// What next order answers, in three parts: one match over all would become a table of jumps, and the gateway has no room for tables.
#[tactic(auto, unfolding(crate::specs::Calls::order_kind))]
fn order_kind(o: Order) -> u32
    ensures { result ≡ order_kind o }
{
    match o {
        Order::Request(_) => 1,
        Order::Return(_) => 2,
        Order::Wait => 3,
        Order::Flown(_) => 4,
        Order::Off => 5,
    }
}

// The number of the booking that an order is for, or 0.
#[tactic(auto, unfolding(crate::specs::Calls::order_booking, crate::specs::Calls::order_way, crate::specs::Calls::order_place))]
fn order_booking(o: Order) -> usize
    requires { order_place o < 65536 }
    ensures { result ≡ order_booking o }
{
    match o {
        Order::Request(x) => x + 1,
        Order::Return(x) => x + 1,
        Order::Wait => 0,
        Order::Flown(_) => 0,
        Order::Off => 0,
    }
}

// The way by which the campaign is flown, or 0.
#[tactic(auto, unfolding(crate::specs::Calls::order_way))]
fn order_way(o: Order) -> usize
    ensures { result ≡ order_way o }
{
    match o {
        Order::Request(_) => 0,
        Order::Return(_) => 0,
        Order::Wait => 0,
        Order::Flown(w) => w as usize,
        Order::Off => 0,
    }
}

fn order_bits(o: Order) -> u32
    requires { order_place o < 65536 }
    ensures { result ≡ order_bits o }
{
    pack(order_kind(o), 0, order_booking(o) + order_way(o))
}

// The place of refusal 9, 0 for a number that no booking can have: C's answer has no other way to say so.
#[tactic(auto, unfolding(guarantee::specs::Answers::place9))]
pub fn place_9(b: u32) -> usize
    ensures { result ≡ place9 b }
{
    if b <= 64 { b as usize } else { 0 }
}

impl Refusal {
    // The answer to a call that is refused with 9, 10 or 11. `bits` answers the refusals of a sheet and of its plan; here they would be an 11 too.
    #[inline(never)]
    #[tactic(auto, unfolding(crate::specs::Refusals::own_bits))]
    fn own_bits(self) -> u32
        ensures { result ≡ own_bits self }
    {
        match self {
            Refusal::Reply(booking) => pack(0, 9, place_9(booking)),
            Refusal::Room => pack(0, 10, 0),
            _ => pack(0, 11, 0),
        }
    }

    // The answer to a call that is refused so. A method and no `From`, which could not ask that the place fits. Refusals 9 to 11 are answered in a
    // function of their own: a match over all would become a table of jumps, and the gateway has no room for tables.
    pub fn bits(self) -> u32
        requires { refusal_place self < 65536 }
        ensures { result ≡ refusal_bits self }
    {
        match self {
            Refusal::Sheet(fault) => pack(0, u32::from(fault.refusal()), fault.line()),
            Refusal::Plan(fault) => pack(0, u32::from(fault.refusal()), fault.place()),
            Refusal::Reply(_) | Refusal::Room | Refusal::State => self.own_bits(),
        }
    }
}

// What a call answers that gives this, or is refused.
pub fn bits_of(answer: Result<u32, Refusal>) -> u32
    requires { IfErr answer (λ refusal. refusal_place refusal < 65536) }
    ensures { result ≡ answer_bits answer }
{
    match answer {
        Ok(bits) => bits,
        Err(refusal) => refusal.bits(),
    }
}

// ---- the sheet

// Reads a sheet for a caller with such limits and checks its plan; the links go into lent ones, which come empty.
pub fn judge_plan_within(
    sheet: &[u8],
    most: Limits,
    links: &mut Links,
) -> Result<Planned, plan::Fault>
    requires { links.old ≡ empty_links }
    ensures told { PlanRead most sheet.now result }
    ensures left { (links.new.from ≡ (links_read most sheet.now).from) × (links.new.to ≡ (links_read most sheet.now).to) }
{
    let outline = sheet::read_outline(sheet, most, links)?;
    let network = network::network_of(&outline, links);
    // checked where it lies: a chart of its own beside it would be copied into it, in every call
    let mut planned = Planned {
        outline,
        chart: Chart { network },
        verdict: Ok(()),
    };
    planned.verdict = verdict::check(&planned.chart);
    Ok(planned)
}

// The same for us.
pub fn judge_plan(sheet: &[u8], links: &mut Links) -> Result<Planned, Refusal>
    requires { links.old ≡ empty_links }
    ensures told { Plans ours sheet.now result }
    ensures left { (links.new.from ≡ (links_read ours sheet.now).from) × (links.new.to ≡ (links_read ours sheet.now).to) }
{
    let planned = judge_plan_within(sheet, plan::ours(), links)?;
    Ok(planned)
}

impl Checked {
    // What check answers of it: accepted, or the fault of its plan.
    pub fn bits(&self) -> u32
        requires { verdict_place self.now.verdict < 65536 }
        ensures { result ≡ check_bits self.now.verdict }
    {
        match self.verdict {
            Ok(()) => pack(6, 0, 0),
            Err(fault) => Refusal::Plan(fault).bits(),
        }
    }
}

// Reads a sheet for a caller with such limits and checks its plan, whose links no one needs any more.
pub fn judge_within(sheet: &[u8], most: Limits) -> Result<Checked, plan::Fault>
    ensures { SheetRead most sheet.now result }
{
    let mut links = Links::none();
    let planned = judge_plan_within(sheet, most, &mut links)?;
    Ok(Checked {
        chart: planned.chart,
        verdict: planned.verdict,
    })
}

// Reads a sheet of ours and checks its plan.
pub fn judge_sheet(sheet: &[u8]) -> Result<Checked, plan::Fault>
    ensures { SheetRead ours sheet.now result }
{
    judge_within(sheet, plan::ours())
}

// What the rules look at, of a sheet that passes for a caller with such limits. It asks for the plan itself: by way of a `Checked` the chart would be
// copied once more, in every call.
pub fn chart_within(sheet: &[u8], most: Limits) -> Result<Chart, Refusal>
    ensures { Judges (passes_within most sheet.now) (network_within most sheet.now) (check_within most sheet.now) result }
{
    let mut links = Links::none();
    let planned = judge_plan_within(sheet, most, &mut links)?;
    planned.verdict?;
    Ok(planned.chart)
}

// The same of a sheet of ours that passes.
pub fn chart_of(sheet: &[u8]) -> Result<Chart, Refusal>
    ensures { Judges (sheet_passes sheet.now) (network_in sheet.now) (check_call sheet.now) result }
{
    chart_within(sheet, plan::ours())
}

// ---- sheets

// Whether a sheet passes for a caller with such limits. It hands out no plan, as a check needs none: the partner's gateway has little stack.
fn examine(sheet: &[u8], most: Limits) -> Result<(), Refusal>
    ensures { MatchResult result (λ u. passes_within most sheet.now ≡ true) (Refused (passes_within most sheet.now) (check_within most sheet.now)) }
{
    let mut links = Links::none();
    let outline = sheet::read_outline(sheet, most, &mut links)?;
    let chart = Chart {
        network: network::network_of(&outline, &links),
    };
    verdict::check(&chart)?;
    Ok(())
}

// Judges a sheet for a caller with such limits: accepted, or the first of refusals 1 to 8 and 16 with its place.
pub fn check_within(sheet: &[u8], most: Limits) -> u32
    ensures { result ≡ check_within most sheet.now }
{
    bits_of(examine(sheet, most).and(Ok(pack(6, 0, 0))))
}

// Judges a sheet: accepted, or the first of refusals 1 to 8 with its place.
pub fn check(sheet: &[u8]) -> u32
    ensures { result ≡ check_call sheet.now }
{
    check_within(sheet, plan::ours())
}

// ---- the run

// What start gives for a sheet that passes and 65 bytes.
fn begin(sheet: &[u8], state: &mut [u8]) -> Result<u32, Refusal>
    ensures answer { Answers (start_call sheet.now state.old) result }
    ensures left { state.new ≡ start_leaves sheet.now state.old }
{
    chart_of(sheet)?;
    if state.len() != 65 {
        return Err(Refusal::State);
    }
    run::store(&Run::start(), state);
    Ok(pack(6, 0, 0))
}

// Begins a campaign: writes the first state over the 65 lent bytes.
pub fn start(sheet: &[u8], state: &mut [u8]) -> u32
    ensures answer { result ≡ start_call sheet.now state.old }
    ensures left { state.new ≡ start_leaves sheet.now state.old }
{
    bits_of(begin(sheet, state))
}

// Takes a campaign up: its sheet is judged, then its state, which is looked at once.
pub fn take_up(sheet: &[u8], state: &[u8]) -> Result<Campaign, Refusal>
    ensures { Takes sheet.now state.now result }
{
    let chart = chart_of(sheet)?;
    if state.len() != 65 {
        return Err(Refusal::State);
    }
    let run = run::load(state);
    let standing = run.standing(chart.network.n);
    if !soundness::is_sound(&chart, &run, standing) {
        return Err(Refusal::State);
    }
    Ok(Campaign {
        chart,
        run,
        standing,
    })
}

// What next order gives for a campaign that can be taken up.
fn ask(sheet: &[u8], state: &mut [u8]) -> Result<u32, Refusal>
    ensures answer { Answers (asked_call sheet.now state.old next_order) result }
    ensures left { state.new ≡ asked_leaves sheet.now state.old next_order }
{
    let campaign = take_up(sheet, state)?;
    let ordered = campaign
        .run
        .next_order(&campaign.chart.network, campaign.standing);
    run::store(&ordered.run, state);
    Ok(order_bits(ordered.order))
}

// Gives the next order to send, or a wait or the end, and the state after it.
pub fn next_order(sheet: &[u8], state: &mut [u8]) -> u32
    ensures answer { result ≡ asked_call sheet.now state.old next_order }
    ensures left { state.new ≡ asked_leaves sheet.now state.old next_order }
{
    bits_of(ask(sheet, state))
}

// A reply by the booking's number: there is no booking 0. None is a reply that does not fit.
pub fn reply_to(r: Run, chart: &Chart, s: Standing, letter: u8, booking: u32) -> Option<Run>
    requires { (r.way ≤ 16) × (s ≡ standing chart.now.network r) }
    ensures { result ≡ kept_of (reply_to chart.now.network r letter booking) }
{
    let b = booking.checked_sub(1)?;
    r.reply(chart, s, letter, b as usize)
}

// What reply gives where it fits.
fn take(sheet: &[u8], state: &mut [u8], letter: u8, booking: u32) -> Result<u32, Refusal>
    ensures answer { Answers (asked_call sheet.now state.old (replied letter booking)) result }
    ensures left { state.new ≡ asked_leaves sheet.now state.old (replied letter booking) }
{
    let c = take_up(sheet, state)?;
    let after = reply_to(c.run, &c.chart, c.standing, letter, booking).ok_or(Refusal::Reply(
        booking,
    ))?;
    run::store(&after, state);
    Ok(pack(6, 0, booking as usize))
}

// Takes a desk's reply: Y or N to a request, G or K to a return.
pub fn reply(sheet: &[u8], state: &mut [u8], letter: u8, booking: u32) -> u32
    ensures answer { result ≡ asked_call sheet.now state.old (replied letter booking) }
    ensures left { state.new ≡ asked_leaves sheet.now state.old (replied letter booking) }
{
    bits_of(take(sheet, state, letter, booking))
}
