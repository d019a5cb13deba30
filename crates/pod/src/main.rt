// The pod's half: requests built and replies read, line by line (the desk's language, `pod`).
#![tactic(auto)]

use languages::Language;

fn main(rt: HostRuntime) {
    conversation::hold(rt.stdin(), rt.stdout(), Language::Pod);
}
