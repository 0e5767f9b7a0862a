// Prints what `group` prints, by the direct method: every record is compared with every center. It stays the direct one whatever `group` does.
#![tactic(auto)]

use console::input::{CENTERS, Input, RECORDING};
use console::show::show;
use program::run::run;

fn main(rt: HostRuntime) -> anyhow::Result<()> {
    let mut recording = Input::empty();
    let mut centers = Input::empty();
    recording.read(&rt, RECORDING);
    centers.read(&rt, CENTERS);
    show(&rt, run(recording.bytes(), centers.bytes()))
}
