// What the campaign guarantees, of the code itself: with a sheet that passes, any list of the calls that a dispatcher makes, next order, reply and
// block of replies, is a whole campaign that never strands: with no reply outstanding, next order gives an order to send or the end, which is a
// way flown or all called off. `play` makes such a list, and its clause `whole` is the claim.
#![tactic(auto)]

ghost use Rattle.std.specs.Prelude.{◌≡◌, true, ◌++◌, ◌+◌, ◌*◌, ◌≤◌, length};
ghost use Rattle.std.proofs.lemmas.List.Edits.{sets};
ghost use Rattle.run.specs.State.{start};
ghost use Rattle.run.specs.Bytes.{bytes_of};
ghost use Rattle.calls.specs.Calls.{sheet_passes};
ghost use Rattle.whole_campaign.specs.Calls.{gives, leaves};
ghost use Rattle.whole_campaign.specs.Whole.{WholeCampaign};
ghost use Rattle.whole_campaign.specs.Play.{word_at, word_text, call_at, list_in, play_call, play_leaves};

use calls::Refusal;

// The 32 bits at a place, high byte first.
// By places: the clauses say where in the list and in the log.
fn word_at(bytes: &[u8], at: usize) -> u32
    requires { at + 4 ≤ length bytes.now }
    ensures { result ≡ word_at bytes.now at }
{
    u32::from_be_bytes([bytes[at], bytes[at + 1], bytes[at + 2], bytes[at + 3]])
}

// Makes the call at index i of a list of calls.
// The kinds stay numbers: `call_at`, on which the theorem rests, gives each byte a call, those above 1 too.
fn make_call(sheet: &[u8], calls: &[u8], blocks: &[u8], i: usize, state: &mut [u8]) -> u32
    requires { 10 * i + 10 ≤ length calls.now }
    ensures answer { result ≡ gives sheet.now state.old (call_at calls.now blocks.now i) }
    ensures left { state.new ≡ leaves sheet.now state.old (call_at calls.now blocks.now i) }
{
    let at = 10 * i;
    let number = word_at(calls, at + 2);
    match calls[at] {
        0 => campaign::campaign_next_order(sheet, state),
        1 => {
            let size = word_at(calls, at + 6);
            let block = decimal::part(blocks, number as usize, size as usize);
            campaign::campaign_reply_block(sheet, block, state)
        }
        _ => campaign::campaign_reply(sheet, state, calls[at + 1], number),
    }
}

// Writes an answer, and the state after it, at a place.
fn write_answer(log: &mut [u8], at: usize, x: u32, state: &[u8])
    requires { at + 4 + length state.now ≤ length log.old }
    ensures { log.new ≡ sets log.old at (word_text x ++ state.now) }
{
    decimal::copy_in(log, at, &x.to_be_bytes());
    decimal::copy_in(log, at + 4, state);
}

// Starts a campaign and makes a list of calls, by the very functions that a dispatcher calls; writes each answer, with the
// state after it, at the front of the log.
pub fn play(sheet: &[u8], calls: &[u8], blocks: &[u8], log: &mut [u8]) -> u32
    ensures answer { result ≡ play_call sheet.now calls.now (length log.old) }
    ensures left { log.new ≡ play_leaves sheet.now calls.now blocks.now log.old }
    ensures whole { sheet_passes sheet.now ≡ true → WholeCampaign sheet.now (bytes_of start) (list_in calls.now blocks.now) }
{
    let mut state = [0u8; 65];
    let answer = campaign::campaign_start(sheet, &mut state);
    // kind 0, a refusal, stands in the highest byte
    if answer < 16777216 {
        return answer;
    }
    let count = calls.len() / 10;
    if log.len() / 69 < count {
        return Refusal::Room.bits();
    }
    // by index: it names a call, and its place in the log
    for i in 0..count {
        let x = make_call(sheet, calls, blocks, i, &mut state);
        write_answer(log, 69 * i, x, &state);
    }
    answer
}
