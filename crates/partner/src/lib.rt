// The call for the partner range: our check, for sheets of at most 16 bookings and 4 ways. Crate partner_c exports it, for an archive of its own.
#![tactic(auto)]

ghost use Rattle.std.specs.Prelude.{◌≡◌};
ghost use Rattle.partner.specs.Partner.{theirs, partner_call};

use plan::Limits;

// What the partner's gateway takes.
#[tactic(auto, unfolding(crate::specs::Partner::theirs))]
fn theirs() -> Limits
    ensures { result ≡ theirs }
{
    Limits {
        bookings: 16,
        links: 512,
        ways: 4,
    }
}

// Judges a sheet: accepted, or the first of refusals 1 to 8 and 16 with its place.
pub fn partner_check(sheet: &[u8]) -> u32
    ensures { result ≡ partner_call sheet.now }
{
    calls::check_within(sheet, theirs())
}
