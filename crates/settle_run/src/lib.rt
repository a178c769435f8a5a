// Accounts' program: the plan sheet from plan.txt, the fee sheet from fees.txt and the journal from journal.txt; the report is printed, or the
// refusal as the drill prints it.
#![tactic(auto)]

ghost use Rattle.std.specs.Prelude.{◌≡◌, ◌≤◌, length};
ghost use Rattle.std.proofs.lemmas.List.Edits.{sets};
ghost use Rattle.settle_run.specs.Settled.{longest_report, settled_text};

use drill_lines::Answer;
use report_lines::{AMOUNT_BYTES, TOTAL_BYTES, WAY_BYTES};

// One byte more than the longest fee sheet, and one line more than the longest journal that is settled: enough to refuse longer files.
const FEES_BYTES: usize = 64 * fees::FEE_BYTES + 1;

const JOURNAL_BYTES: usize = 6 * (charges::MOST_LINES + 1);

// The bytes of the longest report: of 64 bookings, 16 ways and the total.
const REPORT_BYTES: usize = 64 * AMOUNT_BYTES + 16 * WAY_BYTES + TOTAL_BYTES;

// Writes what is printed at the front, and gives its length.
fn write_settled(sheet: &[u8], fees: &[u8], journal: &[u8], text: &mut [u8]) -> usize
    requires { longest_report ≤ length text.old }
    ensures size { result ≡ length (settled_text sheet.now fees.now journal.now) }
    ensures text { text.new ≡ sets text.old 0 (settled_text sheet.now fees.now journal.now) }
{
    let bits = campaign::campaign_settle(sheet, fees, journal, text);
    match Answer::from(bits) {
        Answer::Refused => drill_lines::write_answer(text, bits),
        _ => drill_lines::place(bits),
    }
}

// Prints the report of three texts, or why there is none. A program has no exit status, so a bill that is lost is told on standard error.
fn print_settled(rt: &HostRuntime, sheet: &[u8], fees: &[u8], journal: &[u8]) {
    let mut text = [0u8; REPORT_BYTES];
    let n = write_settled(sheet, fees, journal, &mut text);
    let _ = files::print(rt, b"settle: the bill could not be written", &text[..n]);
}

// Reads the three files and prints. Each that is missing or cannot be read is told on standard error, and then nothing is printed.
pub fn run(rt: &HostRuntime) {
    let mut sheet = [0u8; files::SHEET_BYTES];
    let mut fees = [0u8; FEES_BYTES];
    let mut journal = [0u8; JOURNAL_BYTES];
    let plan_read = files::read_needed(rt, b"settle: plan.txt", b"plan.txt", &mut sheet);
    let fees_read = files::read_needed(rt, b"settle: fees.txt", b"fees.txt", &mut fees);
    let journal_read = files::read_needed(rt, b"settle: journal.txt", b"journal.txt", &mut journal);
    if let (Ok(s), Ok(f), Ok(j)) = (plan_read, fees_read, journal_read) {
        print_settled(rt, &sheet[..s], &fees[..f], &journal[..j]);
    }
}
