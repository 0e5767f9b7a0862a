use crate::told::{DRIVES, TELEGRAM_CENTERS, TELEGRAMS, tells};
use std::test::Fail;

// Recordings whose first line is not the names of a kind.
const WRONG_RECORDINGS: [&str; 20] = [
    // A name is missing.
    "gap,length\n100,10\n",
    "length,hold\n10,1\n",
    "lag,torque,speed\n1,2,3\n",
    // A name is doubled.
    "gap,gap,hold\n100,100,1\n",
    "gap,length,hold,hold\n100,10,1,1\n",
    "lag,torque,speed,lag\n1,2,3,1\n",
    // A name is of the other kind.
    "gap,length,temp\n100,10,4\n",
    "lag,torque,speed,gap\n1,2,3,100\n",
    "gap,length,hold,lag\n100,10,1,1\n",
    // A name is of no kind.
    "gap,length,weight\n100,10,1\n",
    "Gap,length,hold\n100,10,1\n",
    "gap, length,hold\n100,10,1\n",
    "gap,length,hold\r\n100,10,1\n",
    "gap,length,hold,\n100,10,1,1\n",
    "gap;length;hold\n100,10,1\n",
    // There are no names, or their line has no end.
    "",
    "\n",
    "\ngap,length,hold\n100,10,1\n",
    "gap,length,hold",
    "lag,torque,speed,temp",
];

// Center files whose first line is not the names of telegram centers.
const WRONG_CENTERS: [&str; 14] = [
    "gap\n100\n",
    "gap,gap\n100,100\n",
    "gap,length,gap\n100,10,100\n",
    "gap,temp\n100,4\n",
    "gap,weight\n100,1\n",
    "gap,LENGTH\n100,10\n",
    "gap,length,\n100,10,1\n",
    // Centers have no hold.
    "gap,length,hold\n100,10,1\n",
    "gap,hold\n100,1\n",
    "lag,torque,speed,temp\n1,2,3,4\n",
    "",
    "\n",
    "\ngap,length\n100,10\n",
    "gap,length",
];

// The same for drive centers.
const WRONG_DRIVE_CENTERS: [&str; 4] = [
    "gap,length\n100,10\n",
    "lag,torque,speed\n1,2,3\n",
    "lag,torque,speed,speed\n1,2,3,3\n",
    "lag,torque,speed,temp",
];

#[test]
fn names(rt: HostRuntime) -> Result<(), Fail> {
    for recording in WRONG_RECORDINGS {
        tells(
            &rt,
            rt.alloc(),
            recording,
            TELEGRAM_CENTERS,
            "21,1,1,0 File",
        )?;
    }
    for centers in WRONG_CENTERS {
        tells(&rt, rt.alloc(), TELEGRAMS, centers, "21,2,1,0 File")?;
    }
    for centers in WRONG_DRIVE_CENTERS {
        tells(&rt, rt.alloc(), DRIVES, centers, "21,2,1,0 File")?;
    }
    Ok(())
}
