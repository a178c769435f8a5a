// Planners' program: the plan sheet from plan.txt and the journal from journal.txt. The state that follows the journal is worked out, and the listing
// of the ways before the current one is printed, or the refusal as the drill prints it.
#![tactic(auto)]

ghost use Rattle.std.specs.Prelude.{◌≡◌, cond, ◌/◌, ◌≤◌, leb, length};
ghost use Rattle.std.proofs.lemmas.List.Edits.{sets};
ghost use Rattle.charges.specs.Charges.{most_lines};
ghost use Rattle.journal_calls.specs.Restart.{restart_leaves};
ghost use Rattle.story_run.specs.Told.{longest_listing, resume_bits, story_text};

use charges::MOST_LINES;
use drill_lines::Answer;

// One line more than the longest journal that is read: enough to refuse longer files.
const JOURNAL_BYTES: usize = 6 * (MOST_LINES + 1);

// The bytes of the longest listing: of 16 ways.
const LISTING_BYTES: usize = 16 * passed_ways::LINE_BYTES;

// Restarts from a journal of at most 10,000 lines. A longer one has the same number as in a settlement: the file was not read to its end, and the
// story of a part would be another.
fn resume(sheet: &[u8], journal: &[u8], state: &mut [u8]) -> u32
    requires { length state.old ≡ 65 }
    ensures answer { result ≡ resume_bits sheet.now journal.now }
    ensures left { state.new ≡ cond (leb (length journal.now / 6) most_lines)
        (restart_leaves sheet.now journal.now state.old) state.old }
{
    if journal.len() / 6 > MOST_LINES {
        let bits = campaign::campaign_check(sheet);
        return match Answer::from(bits) {
            Answer::Refused => bits,
            _ => calls::pack(0, 14, 0),
        };
    }
    campaign::campaign_restart(sheet, journal, state)
}

// Writes what is printed at the front, and gives its length.
fn write_story(sheet: &[u8], journal: &[u8], text: &mut [u8]) -> usize
    requires { longest_listing ≤ length text.old }
    ensures size { result ≡ length (story_text sheet.now journal.now) }
    ensures text { text.new ≡ sets text.old 0 (story_text sheet.now journal.now) }
{
    let mut state = [0u8; 65];
    let bits = resume(sheet, journal, &mut state);
    match Answer::from(bits) {
        Answer::Refused => drill_lines::write_answer(text, bits),
        _ => drill_lines::place(campaign::campaign_passed_ways(sheet, &state, text)),
    }
}

// Prints the story of two texts, or why there is none. A program has no exit status, so a story that is lost is told on standard error.
// As the bill is printed: one function over the writer and the size would be longer than both.
fn print_story(rt: &HostRuntime, sheet: &[u8], journal: &[u8]) {
    let mut text = [0u8; LISTING_BYTES];
    let n = write_story(sheet, journal, &mut text);
    let _ = files::print(rt, b"story: the listing could not be written", &text[..n]);
}

// Reads the two files and prints. Each that is missing or cannot be read is told on standard error, and then nothing is printed.
pub fn run(rt: &HostRuntime) {
    let mut sheet = [0u8; files::SHEET_BYTES];
    let mut journal = [0u8; JOURNAL_BYTES];
    let plan_read = files::read_needed(rt, b"story: plan.txt", b"plan.txt", &mut sheet);
    let journal_read = files::read_needed(rt, b"story: journal.txt", b"journal.txt", &mut journal);
    if let (Ok(s), Ok(j)) = (plan_read, journal_read) {
        print_story(rt, &sheet[..s], &journal[..j]);
    }
}
