// The function that the partner range's archive exports. It calls the function of its name in crate partner and states its clause again:
// a crate is a library or an archive and never both.
#![tactic(auto)]

ghost use Rattle.std.specs.Prelude.{◌≡◌};
ghost use Rattle.partner.specs.Partner.{partner_call};

// Judges a sheet: accepted, or the first of refusals 1 to 8 and 16 with its place.
#[unsafe(no_mangle)]
pub extern "C" fn partner_check(sheet: &[u8]) -> u32
    ensures { result ≡ partner_call sheet.now }
{
    partner::partner_check(sheet)
}
