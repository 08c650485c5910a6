// Runs a script from standard input, and writes its answers to standard output ("01, The script and one whole run").
#![tactic(auto)]

fn main(rt: HostRuntime) {
    feeding::feed(&rt, &mut rt.stdin(), &mut rt.stdout());
}
