// The story of the Tanker flight, flown by its second way.
#![tactic(auto)]

fn main(rt: HostRuntime) {
    story_run::run(&rt);
}
