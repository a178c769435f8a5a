// The lines that the flights print: a name and two numbers. A sheet's line has its refusal (0 is none) and the line that is refused.
#![tactic(auto)]

use std::io::Write;

// Prints a line. A name is bytes: that of a sheet stands in the input, which need not be text. A line that cannot be printed is left out.
pub fn show(rt: &HostRuntime, name: &[u8], first: u64, second: u64) {
    let mut out = rt.stdout();
    let _ = out.write_all(name);
    let _ = writeln!(out, " {first} {second}");
}

// Reads a sheet and prints its line.
pub fn read(rt: &HostRuntime, name: &[u8], s: &[u8]) {
    let judged = sheet::read_sheet(s).map(|_| ());
    let refusal = u64::from(plan::judged_refusal(judged));
    show(rt, name, refusal, plan::judged_place(judged) as u64);
}
