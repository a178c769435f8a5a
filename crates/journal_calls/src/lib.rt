// What the calls of the journal do: a line written, and a campaign restarted from its journal. Crate campaign_c exports them to C.
#![tactic(auto)]

ghost use Rattle.std.specs.Prelude.{◌≡◌, ◌≤◌, length};
ghost use Rattle.run.specs.Bytes.{bytes_of};
ghost use Rattle.calls.specs.Refusals.{Answers};
ghost use Rattle.journal_calls.specs.Journal.{is_letter, has_line, journal_line_call, journal_line_leaves};
ghost use Rattle.journal_calls.specs.Restart.{replay, wrong_line, line_place, restart_call, restart_leaves};

use calls::Refusal;
use network::Chart;
use run::Run;

// ---- a line

// Whether a line of a journal may have this letter.
#[tactic(auto, unfolding(crate::specs::Journal::is_letter))]
fn is_letter(letter: u8) -> bool
    ensures { result ≡ is_letter letter }
{
    event_lines::is_order(letter) || matches!(letter, b'Y' | b'N' | b'G' | b'K')
}

// Whether an order or a reply of this letter, to this booking, may have a line.
#[tactic(auto, unfolding(crate::specs::Journal::has_line))]
fn has_line(letter: u8, booking: u32) -> bool
    ensures { result ≡ has_line letter booking }
{
    is_letter(letter) && (1..=64).contains(&booking)
}

// Writes the line of an order or a reply at the front of the lent bytes.
pub fn journal_line(letter: u8, booking: u32, line: &mut [u8]) -> u32
    ensures answer { result ≡ journal_line_call letter booking (length line.old) }
    ensures left { line.new ≡ journal_line_leaves letter booking line.old }
{
    if !has_line(letter, booking) {
        return Refusal::Reply(booking).bits();
    }
    if line.len() < 6 {
        return Refusal::Room.bits();
    }
    let n = event_lines::write_line(line, letter, booking as usize);
    calls::pack(6, 0, n)
}

// ---- restart

// Takes the journal's whole lines one after the other, from the start, in 65 lent bytes. An error is the number of the first wrong line.
pub fn replay(chart: &Chart, journal: &[u8], state: &mut [u8]) -> Result<(), usize>
    requires { length state.old ≡ 65 }
    ensures told { result ≡ wrong_line (replay chart.now.network journal.now).wrong }
    ensures left { state.new ≡ bytes_of (replay chart.now.network journal.now).run }
{
    let run = Run::start();
    let standing = run.standing(chart.network.n);
    run::store(&run, state);
    let t = lent_state::take_lines(chart, standing, journal, true, state);
    match t.fault {
        None => Ok(()),
        Some(_) => Err(t.kept + 1),
    }
}

// The place of refusal 12.
#[tactic(auto, unfolding(crate::specs::Restart::line_place))]
pub fn line_place(number: usize) -> usize
    ensures { result ≡ line_place number }
{
    number.min(65535)
}

// What restart gives for a sheet that passes and 65 bytes.
fn restarted(sheet: &[u8], journal: &[u8], state: &mut [u8]) -> Result<u32, Refusal>
    ensures answer { Answers (restart_call sheet.now journal.now state.old) result }
    ensures left { state.new ≡ restart_leaves sheet.now journal.now state.old }
{
    let chart = calls::chart_of(sheet)?;
    if state.len() != 65 {
        return Err(Refusal::State);
    }
    let mut bytes = [0u8; 65];
    if let Err(wrong) = replay(&chart, journal, &mut bytes) {
        // 12 is no `calls::Refusal`: of the calls that share it this one alone has it, and an enum for it would be longer than this line
        return Ok(calls::pack(0, 12, line_place(wrong)));
    }
    state.copy_from_slice(&bytes);
    Ok(calls::pack(6, 0, 0))
}

// Gives the state that follows the whole lines of a journal. They are taken in bytes of its own, so that a wrong line leaves the lent ones.
pub fn restart(sheet: &[u8], journal: &[u8], state: &mut [u8]) -> u32
    ensures answer { result ≡ restart_call sheet.now journal.now state.old }
    ensures left { state.new ≡ restart_leaves sheet.now journal.now state.old }
{
    calls::bits_of(restarted(sheet, journal, state))
}
