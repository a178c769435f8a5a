// What the call of the passed-over ways does: from sheet and state the listing that says why each way before the current one is out.
// Crate campaign_c exports it to C.
#![tactic(auto)]

ghost use Rattle.std.specs.Prelude.{◌≡◌, length};
ghost use Rattle.calls.specs.Refusals.{Answers};
ghost use Rattle.passed_calls.specs.Passed.{passed_call, passed_leaves};

use calls::Refusal;
use passed_ways::LINE_BYTES;

// What the call gives where the campaign can be taken up and its listing has room.
fn list(sheet: &[u8], state: &[u8], listing: &mut [u8]) -> Result<u32, Refusal>
    ensures answer { Answers (passed_call sheet.now state.now (length listing.old)) result }
    ensures left { listing.new ≡ passed_leaves sheet.now state.now listing.old }
{
    let campaign = calls::take_up(sheet, state)?;
    let network = &campaign.chart.network;
    let standing = campaign.standing;
    let count = soundness::ways_before(network, campaign.run.way as usize);
    let size = LINE_BYTES * count;
    if listing.len() < size {
        return Err(Refusal::Room);
    }
    let ways = &network.way[..count];
    let firm = standing.held & network.firm;
    passed_ways::write_listing(listing, ways, standing.lost, firm);
    Ok(calls::pack(6, 0, size))
}

// Writes the listing of a sheet and a state at the front of the lent bytes.
pub fn passed_ways(sheet: &[u8], state: &[u8], listing: &mut [u8]) -> u32
    ensures answer { result ≡ passed_call sheet.now state.now (length listing.old) }
    ensures left { listing.new ≡ passed_leaves sheet.now state.now listing.old }
{
    calls::bits_of(list(sheet, state, listing))
}
