// Both halves joined: requests sent to the board and their replies read, line by line (the desk's language, `talk`).
#![tactic(auto)]

use languages::Language;

fn main(rt: HostRuntime) {
    conversation::hold(rt.stdin(), rt.stdout(), Language::Talk);
}
