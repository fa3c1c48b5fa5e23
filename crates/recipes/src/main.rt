// Replays the stored list of recipes, which are messages, and prints how many differ, then shows an example of reach.
#![tactic(auto)]

mod reach_example;
mod replay;
mod runs;

use std::io;

fn main(rt: HostRuntime) -> io::Result<()> {
    replay::replay(&rt)?;
    reach_example::show(&rt)
}
