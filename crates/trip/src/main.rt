// The program: the store of the working folder, brought to its target and printed.
#![tactic(auto)]

fn main(rt: HostRuntime) {
    folder::bring_to_target(&rt);
}
