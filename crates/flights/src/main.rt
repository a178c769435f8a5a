// Reads the sheets that stand in its input, whose refusals are known from the rules alone, and prints a line for each.
#![tactic(auto)]

ghost use Rattle.std.specs.Prelude.{◌+◌, ◌≤◌, length};

// Where the first b stands from a place on; the end where there is none.
fn find(s: &[u8], from: usize, b: u8) -> usize
    ensures { (from ≤ result) × (result ≤ from + length s.now) }
{
    let rest = decimal::part(s, from, s.len());
    from + rest.iter().position(|x| *x == b).unwrap_or(rest.len())
}

// Reads sheet after sheet. Each has its name on a line before it, and a semicolon and a line feed after it. A `while`: the next place is
// where this sheet ends.
fn read_all(rt: &HostRuntime, cases: &[u8])
    requires { length cases.now ≤ 65536 }
{
    let mut at = 0;
    while at < cases.len() {
        let line = find(cases, at, b'\n');
        let sheet = line + 1;
        let end = find(cases, sheet, b';');
        flight_lines::read(
            rt,
            decimal::part(cases, at, line - at),
            decimal::part(cases, sheet, end - sheet),
        );
        at = end + 2;
    }
}

fn main(rt: HostRuntime) {
    let mut cases = [0u8; 65536];
    // by the library `io`: where a read fails, what came before it is read as ever
    let n = io::read_full(0, &mut cases);
    read_all(&rt, &cases[..n]);
}
