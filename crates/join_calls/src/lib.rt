// What the call of a join does: two sheets, and the sheet of both plans as one. Crate campaign has it under its name
// for C and crate campaign_c exports it.
#![tactic(auto)]

ghost use Rattle.std.specs.Prelude.{◌≡◌, ◌≤◌, ◌<◌, length};
ghost use Rattle.plan.specs.Limits.{ours};
ghost use Rattle.plan.specs.Links.{empty_links};
ghost use Rattle.sheet.specs.Outlined.{links_read};
ghost use Rattle.join_calls.specs.Join.{join_call, join_leaves};
ghost use Rattle.join_calls.specs.Refusals.{join_bits, join_place, Clears, JoinsOrNot};

use calls::Refusal;
use plan::{Links, Outline, Plan};

// Why two sheets are not joined: what is wrong with one of them, or refusal 17, since they are too large together.
#[derive(Clone, Copy, PartialEq, Eq, Debug)]
pub enum JoinRefusal {
    Sheet(Refusal),
    Large,
}

impl From<Refusal> for JoinRefusal {
    ghost use Rattle.join_calls.specs.declared.JoinRefusal.TheVariants.{Sheet};

    ghost from_gives = { λ refusal given. given ≡ Sheet refusal };

    fn from(refusal: Refusal) -> JoinRefusal {
        JoinRefusal::Sheet(refusal)
    }
}

impl JoinRefusal {
    // The answer to a join that is refused so.
    #[tactic(auto, unfolding(crate::specs::Refusals::join_bits, crate::specs::Refusals::join_place))]
    pub fn bits(self) -> u32
        requires { join_place self < 65536 }
        ensures { result ≡ join_bits self }
    {
        match self {
            JoinRefusal::Sheet(refusal) => refusal.bits(),
            JoinRefusal::Large => calls::pack(0, 17, 0),
        }
    }
}

// Reads a sheet that is to have none of refusals 1 to k; the links go into lent ones, which come empty.
fn clear_plan(sheet: &[u8], k: usize, links: &mut Links) -> Result<Outline, Refusal>
    requires { (3 ≤ k) × (links.old ≡ empty_links) }
    ensures told { Clears k sheet.now result }
    ensures left { (links.new.from ≡ (links_read ours sheet.now).from) × (links.new.to ≡ (links_read ours sheet.now).to) }
{
    let planned = calls::judge_plan(sheet, links)?;
    match planned.verdict {
        Err(fault) if !clear::is_clear_verdict(planned.verdict, k) => Err(fault.into()),
        _ => Ok(planned.outline),
    }
}

// The plan of two sheets in one. The first sheet is judged, then the second, then the counts of both together.
fn joined_plan(first: &[u8], second: &[u8]) -> Result<Plan, JoinRefusal>
    ensures { JoinsOrNot first.now second.now result }
{
    let mut pl = Links::none();
    let p = clear_plan(first, 7, &mut pl)?;
    let mut ql = Links::none();
    let q = clear_plan(second, 7, &mut ql)?;
    if !plan::are_counted(plan::ours(), p.n + q.n, p.m + q.m, p.a * q.a) {
        return Err(JoinRefusal::Large);
    }
    Ok(join::join_plans(&p, &pl, &q, &ql))
}

// Writes the joined sheet of two sheets at the front of the lent bytes. The sheets and their counts are judged first, and the room last.
pub fn join(first: &[u8], second: &[u8], joined: &mut [u8]) -> u32
    ensures answer { result ≡ join_call first.now second.now (length joined.old) }
    ensures left { joined.new ≡ join_leaves first.now second.now joined.old }
{
    match joined_plan(first, second) {
        Ok(plan) => lent_sheet::put_sheet(joined, &plan),
        Err(refusal) => refusal.bits(),
    }
}
