// The bill of the Tanker flight, flown by its second way.
#![tactic(auto)]

fn main(rt: HostRuntime) {
    settle_run::run(&rt);
}
