// The drill on the Tanker flight, flown by its second way.
#![tactic(auto)]

fn main(rt: HostRuntime) {
    drill_run::run(&rt);
}
