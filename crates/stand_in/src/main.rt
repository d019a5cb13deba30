// The stand-in: a board that answers the lines of standard input (the desk's language, `stand_in`).
#![tactic(auto)]

use languages::Language;

fn main(rt: HostRuntime) {
    conversation::hold(rt.stdin(), rt.stdout(), Language::StandIn);
}
