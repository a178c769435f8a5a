// What the call of a block does: replies in lines of six bytes, taken one after the other up to the first bad line. Crate campaign_c exports it.
#![tactic(auto)]

ghost use Rattle.std.specs.Prelude.{◌≡◌, ◌≤◌, length};
ghost use Rattle.run.specs.Bytes.{bytes_of, run_of};
ghost use Rattle.lent_state.specs.Lines.{number_of};
ghost use Rattle.lent_state.specs.Stands.{Stands};
ghost use Rattle.calls.specs.Refusals.{Answers};
ghost use Rattle.block_calls.specs.Block.{lines_of, block_of, with_tail, bits_of, block_call, block_leaves};

use calls::Refusal;
use lent_state::{LineFault, Taken};
use network::Chart;
use standing::Standing;

// What is wrong after the whole lines: an unfinished line at the end is misformed.
#[tactic(auto, unfolding(crate::specs::Block::with_tail))]
fn with_tail(fault: Option<LineFault>, length: usize) -> Option<LineFault>
    ensures { result ≡ with_tail fault length }
{
    fault.or((length % 6 != 0).then_some(LineFault::Misformed))
}

// Takes a block's lines one after the other, up to the first bad one; what is left after its whole lines is an unfinished line.
fn take_lines(chart: &Chart, s: Standing, block: &[u8], state: &mut [u8]) -> Taken
    requires { Stands chart.now.network s state.old }
    ensures told { (result.kept ≡ (block_of chart.now.network (run_of state.old) (lines_of block.now)).kept)
        × (number_of result.fault ≡ (block_of chart.now.network (run_of state.old) (lines_of block.now)).fault) }
    ensures left { state.new ≡ bytes_of (block_of chart.now.network (run_of state.old) (lines_of block.now)).run }
{
    let t = lent_state::take_lines(chart, s, block, false, state);
    Taken {
        kept: t.kept,
        fault: with_tail(t.fault, block.len()),
    }
}

// Accepted with the number taken, or the fault with its line.
fn block_bits(t: Taken) -> u32
    requires { t.kept ≤ 64 }
    ensures { result ≡ bits_of t.kept (number_of t.fault) }
{
    match t.fault {
        None => calls::pack(6, 0, t.kept),
        Some(fault) => calls::pack(0, fault.refusal(), t.kept + 1),
    }
}

// What the call of a block gives for a campaign that can be taken up. A bad line is none of its refusals: the replies before it are kept.
fn take(sheet: &[u8], block: &[u8], state: &mut [u8]) -> Result<u32, Refusal>
    ensures answer { Answers (block_call sheet.now block.now state.old) result }
    ensures left { state.new ≡ block_leaves sheet.now block.now state.old }
{
    let campaign = calls::take_up(sheet, state)?;
    let taken = take_lines(&campaign.chart, campaign.standing, block, state);
    Ok(block_bits(taken))
}

// Takes the replies of a block, up to its first bad line.
pub fn reply_block(sheet: &[u8], block: &[u8], state: &mut [u8]) -> u32
    ensures answer { result ≡ block_call sheet.now block.now state.old }
    ensures left { state.new ≡ block_leaves sheet.now block.now state.old }
{
    calls::bits_of(take(sheet, block, state))
}
