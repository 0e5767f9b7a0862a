// Groups the records of recording.txt around the centers of centers.txt, both in the folder that it is run in, and prints the groups
// or the first fault.
#![tactic(auto)]

use console::input::{CENTERS, Input, RECORDING};
use console::show::show;
use program::run::run;

fn main(rt: HostRuntime) -> anyhow::Result<()> {
    let mut recording = Input::empty();
    let mut centers = Input::empty();
    recording.read(&rt, RECORDING);
    centers.read(&rt, CENTERS);
    show(&rt, run(recording.bytes(), centers.bytes()))
}
