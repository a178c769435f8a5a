// The drill: the sheet from plan.txt, replies from standard input, and each answer of the calls printed.
#![tactic(auto)]

ghost use Rattle.std.specs.Prelude.{◌≡◌};
ghost use Rattle.event_lines.specs.Line.{line_of};
ghost use Rattle.drill_run.specs.Drilled.{heard_of, heard_leaves, HeardAs, Played, DrilledFromStart};

use drill_lines::Step;
use files::{Told, Unread};

// Prints the line of an answer, if it has one.
fn print_answer(rt: &HostRuntime, bits: u32) -> Result<(), Told> {
    let mut line = [0u8; 12];
    let n = drill_lines::write_answer(&mut line, bits);
    files::print(rt, b"drill: an answer could not be written", &line[..n])
}

// Prints that reply `number` is not of its form.
fn print_misformed(rt: &HostRuntime, number: usize) -> Result<(), Told> {
    let mut line = [0u8; 12];
    let n = drill_lines::write_refusal(&mut line, 1, number);
    files::print(rt, b"drill: a refusal could not be written", &line[..n])
}

// Hands on a line that stands as reply `number`, and gives the answer of the call; or prints that it is none.
fn hand_on(
    rt: &HostRuntime,
    sheet: &[u8],
    state: &mut [u8],
    line: &[u8],
    number: usize,
) -> Option<u32>
    ensures answer { result ≡ heard_of sheet.now state.old (line_of line.now) }
    ensures left { state.new ≡ heard_leaves sheet.now state.old (line_of line.now) }
{
    let Some(reply) = event_lines::read_line(line) else {
        // It stops after this line, also where the line could not be written.
        let _ = print_misformed(rt, number);
        return None;
    };
    Some(campaign::campaign_reply(sheet, state, reply.letter, reply.booking))
}

// Reads reply `number`, if the input has not ended, and hands it on. Bytes before a read that fails are no reply. Nothing is given where the input
// has ended or cannot be read, or where what stands there is no reply.
fn hear(rt: &HostRuntime, sheet: &[u8], state: &mut [u8], number: usize) -> Option<u32>
    ensures { HeardAs sheet.now state.old result state.new }
{
    let mut line = [0u8; 6];
    let n = files::read_open(rt, b"drill: standard input", &mut rt.stdin(), &mut line).ok()?;
    if n == 0 {
        return None;
    }
    hand_on(rt, sheet, state, &line[..n], number)
}

// Goes on from the answer of start, call after call, as `after_answer` says, until nothing more is asked for or an answer cannot be printed. A
// proved loop has to end, and nothing says that the input does: so the turns are those of a number that no run uses up.
fn play(rt: &HostRuntime, sheet: &[u8], state: &mut [u8], started: u32)
    ensures { Played sheet.now started state.old state.new }
{
    let mut bits = started;
    let mut replies = 0;
    for _ in 0..usize::MAX {
        if print_answer(rt, bits).is_err() {
            return;
        }
        match drill_lines::after_answer(bits) {
            Step::TakeOrder => bits = campaign::campaign_next_order(sheet, state),
            Step::ReadReply => {
                replies += 1;
                let Some(answer) = hear(rt, sheet, state, replies) else {
                    return;
                };
                bits = answer;
            }
            Step::Stop => return,
        }
    }
}

// Begins a campaign and plays it.
fn drill(rt: &HostRuntime, sheet: &[u8], state: &mut [u8])
    ensures { DrilledFromStart sheet.now state.old state.new }
{
    let started = campaign::campaign_start(sheet, state);
    play(rt, sheet, state, started);
}

// The whole drill: the sheet from its file, the state as it comes. A missing file counts as empty.
pub fn run(rt: &HostRuntime) {
    let mut sheet = [0u8; files::SHEET_BYTES];
    let mut state = [0u8; 65];
    match files::read_file(rt, b"drill: plan.txt", b"plan.txt", &mut sheet) {
        Ok(n) => drill(rt, &sheet[..n], &mut state),
        Err(Unread::Missing) => drill(rt, b"", &mut state),
        Err(Unread::Failed) => {}
    }
}
