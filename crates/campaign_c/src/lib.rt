// The functions that the archive for C exports. Each calls the function of its name in crate campaign and states its clauses again:
// a crate is a library or an archive and never both, so the crates above call `campaign`, and C calls these.
#![tactic(auto)]

ghost use Rattle.std.specs.Prelude.{◌≡◌, length};
ghost use Rattle.guarantee.specs.Machine.{next_order, replied};
ghost use Rattle.calls.specs.Calls.{check_call, start_call, start_leaves, asked_call, asked_leaves};
ghost use Rattle.block_calls.specs.Block.{block_call, block_leaves};
ghost use Rattle.journal_calls.specs.Journal.{journal_line_call, journal_line_leaves};
ghost use Rattle.journal_calls.specs.Restart.{restart_call, restart_leaves};
ghost use Rattle.passed_calls.specs.Passed.{passed_call, passed_leaves};
ghost use Rattle.settle_calls.specs.Settle.{settle_call, settle_leaves};
ghost use Rattle.join_calls.specs.Join.{join_call, join_leaves};

// ---- sheets

// Judges a sheet: accepted, or the first of refusals 1 to 8 with its place.
#[unsafe(no_mangle)]
pub extern "C" fn campaign_check(sheet: &[u8]) -> u32
    ensures { result ≡ check_call sheet.now }
{
    campaign::campaign_check(sheet)
}

// Joins two sheets into one: the second plan's bookings and links after the first's, and every pair of ways.
#[unsafe(no_mangle)]
pub extern "C" fn campaign_join(first: &[u8], second: &[u8], joined: &mut [u8]) -> u32
    ensures answer { result ≡ join_call first.now second.now (length joined.old) }
    ensures left { joined.new ≡ join_leaves first.now second.now joined.old }
{
    campaign::campaign_join(first, second, joined)
}

// ---- the run

// Begins a campaign: writes the first state over the 65 lent bytes.
#[unsafe(no_mangle)]
pub extern "C" fn campaign_start(sheet: &[u8], state: &mut [u8]) -> u32
    ensures answer { result ≡ start_call sheet.now state.old }
    ensures left { state.new ≡ start_leaves sheet.now state.old }
{
    campaign::campaign_start(sheet, state)
}

// Gives the next order to send, or a wait or the end, and the state after it.
#[unsafe(no_mangle)]
pub extern "C" fn campaign_next_order(sheet: &[u8], state: &mut [u8]) -> u32
    ensures answer { result ≡ asked_call sheet.now state.old next_order }
    ensures left { state.new ≡ asked_leaves sheet.now state.old next_order }
{
    campaign::campaign_next_order(sheet, state)
}

// Takes a desk's reply: Y or N to a request, G or K to a return.
#[unsafe(no_mangle)]
pub extern "C" fn campaign_reply(sheet: &[u8], state: &mut [u8], letter: u8, booking: u32) -> u32
    ensures answer { result ≡ asked_call sheet.now state.old (replied letter booking) }
    ensures left { state.new ≡ asked_leaves sheet.now state.old (replied letter booking) }
{
    campaign::campaign_reply(sheet, state, letter, booking)
}

// Takes the replies of a block, up to its first bad line.
#[unsafe(no_mangle)]
pub extern "C" fn campaign_reply_block(sheet: &[u8], block: &[u8], state: &mut [u8]) -> u32
    ensures answer { result ≡ block_call sheet.now block.now state.old }
    ensures left { state.new ≡ block_leaves sheet.now block.now state.old }
{
    campaign::campaign_reply_block(sheet, block, state)
}

// Writes the listing of the ways before the current one at the front of the lent bytes: why each is out.
#[unsafe(no_mangle)]
pub extern "C" fn campaign_passed_ways(sheet: &[u8], state: &[u8], listing: &mut [u8]) -> u32
    ensures answer { result ≡ passed_call sheet.now state.now (length listing.old) }
    ensures left { listing.new ≡ passed_leaves sheet.now state.now listing.old }
{
    campaign::campaign_passed_ways(sheet, state, listing)
}

// ---- the journal

// Writes the line of an order or a reply at the front of the lent bytes.
#[unsafe(no_mangle)]
pub extern "C" fn campaign_journal_line(letter: u8, booking: u32, line: &mut [u8]) -> u32
    ensures answer { result ≡ journal_line_call letter booking (length line.old) }
    ensures left { line.new ≡ journal_line_leaves letter booking line.old }
{
    campaign::campaign_journal_line(letter, booking, line)
}

// Gives the state that follows the whole lines of a journal.
#[unsafe(no_mangle)]
pub extern "C" fn campaign_restart(sheet: &[u8], journal: &[u8], state: &mut [u8]) -> u32
    ensures answer { result ≡ restart_call sheet.now journal.now state.old }
    ensures left { state.new ≡ restart_leaves sheet.now journal.now state.old }
{
    campaign::campaign_restart(sheet, journal, state)
}

// ---- accounts

// Writes the bill of a plan sheet, a fee sheet and a journal at the front of the lent bytes.
#[unsafe(no_mangle)]
pub extern "C" fn campaign_settle(
    sheet: &[u8],
    fees: &[u8],
    journal: &[u8],
    report: &mut [u8],
) -> u32
    ensures answer { result ≡ settle_call sheet.now fees.now journal.now (length report.old) }
    ensures left { report.new ≡ settle_leaves sheet.now fees.now journal.now report.old }
{
    campaign::campaign_settle(sheet, fees, journal, report)
}
