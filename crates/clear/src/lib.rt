// Which sheets are clear of the first refusals: those that check does not refuse with one of 1 to k.
#![tactic(auto)]

ghost use Rattle.std.specs.Prelude.{◌≡◌, ◌<◌};
ghost use Rattle.verdict.specs.Check.{verdict_place};
ghost use Rattle.guarantee.specs.Answers.{check_bits};
ghost use Rattle.clear.specs.Clear.{clear_bits, clear_verdict};

use verdict::Fault;

// Whether an answer of check says that refusals 1 to k are absent.
// A join asks the verdict, below; this one stays for its clause and its edits, which hold of any 32 bits.
pub fn is_clear(bits: u32, k: usize) -> bool
    ensures { result ≡ clear_bits k bits }
{
    !plan::is_within(1, (bits / 65536 % 256) as usize, k)
}

// The same of what the check says of a plan: it is accepted, or refused with a later number.
pub fn is_clear_verdict(verdict: Result<(), Fault>, k: usize) -> bool
    ensures number { result ≡ clear_verdict k verdict }
    ensures answer { verdict_place verdict < 65536 → result ≡ clear_bits k (check_bits verdict) }
{
    match verdict {
        Ok(()) => true,
        Err(fault) => k < usize::from(fault.refusal()),
    }
}
