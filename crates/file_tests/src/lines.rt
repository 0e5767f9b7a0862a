use crate::told::{DRIVE_CENTERS, DRIVES, TELEGRAM_CENTERS, TELEGRAMS, tells};
use std::alloc::Global;
use std::process::Abort;
use std::test::Fail;

// What stands after the names of a telegram recording, and what is told of it.
const TELEGRAM_ROWS: [(&str, &str); 24] = [
    ("", "1,1,0,0 File"),
    // One value is wrong.
    ("100,10,0\n", "24,1,2,3 Value"),
    ("100,010,1\n", "23,1,2,2 Value"),
    ("100,10,1\n100,10,0\n", "24,1,3,3 Value"),
    // There are too few values or too many; an empty line is one empty value.
    ("100,10\n", "22,1,2,0 Row"),
    ("100,10,1,5\n", "22,1,2,0 Row"),
    ("100,10,1,\n", "22,1,2,0 Row"),
    ("\n", "22,1,2,0 Row"),
    ("100,10,1\n\n100,10,1\n", "22,1,3,0 Row"),
    ("100,10,1\n\n", "22,1,3,0 Row"),
    // The last line has no end, whatever else is wrong with it.
    ("100,10,1", "25,1,2,0 Row"),
    ("100,10", "25,1,2,0 Row"),
    ("100,x,1", "25,1,2,0 Row"),
    ("100,10,0", "25,1,2,0 Row"),
    ("100,10,1\n\n100,10,1", "22,1,3,0 Row"),
    ("100,10,1\n100,10,1\n1", "25,1,4,0 Row"),
    // Of several faults in a line the number of values comes first, then the values from the left.
    ("x,y\n", "22,1,2,0 Row"),
    ("99999,x,1\n", "24,1,2,1 Value"),
    ("x,99999,0\n", "23,1,2,1 Value"),
    ("100,1501,x\n", "24,1,2,2 Value"),
    ("100,x,0\n", "23,1,2,2 Value"),
    ("1000000,10,1\n", "23,1,2,1 Value"),
    // Of several lines the first that is wrong is told.
    ("100,10,0\nx,10,1\n", "24,1,2,3 Value"),
    ("100,10,1\n100,10\n100,10,0\n", "22,1,3,0 Row"),
];

// The same for drive recordings and for files of drive centers, but for the number of the file.
const DRIVE_ROWS: [(&str, &str, &str); 7] = [
    ("", "1,1,0,0 File", "11,2,0,0 File"),
    ("1,2,3\n", "22,1,2,0 Row", "22,2,2,0 Row"),
    ("1,2,3,4,5\n", "22,1,2,0 Row", "22,2,2,0 Row"),
    ("1,2,3,4\n\n", "22,1,3,0 Row", "22,2,3,0 Row"),
    ("1,2,3,4\n1,2,3,x", "25,1,3,0 Row", "25,2,3,0 Row"),
    ("1,2,3,x\n", "23,1,2,4 Value", "23,2,2,4 Value"),
    ("1,32768,x,4\n", "24,1,2,2 Value", "24,2,2,2 Value"),
];

// The same for files of telegram centers.
const TELEGRAM_CENTER_ROWS: [(&str, &str); 8] = [
    ("", "11,2,0,0 File"),
    ("100\n", "22,2,2,0 Row"),
    ("100,10,1\n", "22,2,2,0 Row"),
    ("100,10\n\n", "22,2,3,0 Row"),
    ("100,10\n100", "25,2,3,0 Row"),
    ("100,+10\n", "23,2,2,2 Value"),
    ("99999,x\n", "24,2,2,1 Value"),
    ("x,99999\n", "23,2,2,1 Value"),
];

// Recordings and center files of which both are wrong: what is wrong with the recording is told.
const BOTH: [(&str, &str, &str); 4] = [
    ("gap,length,hold\n100,10,0\n", "", "24,1,2,3 Value"),
    ("", "gap,length\n100,x\n", "21,1,1,0 File"),
    ("gap,length,hold\n", "gap,length\n", "1,1,0,0 File"),
    (
        "lag,torque,speed,temp\n1,2,3\n",
        "gap,length\n100,10\n",
        "22,1,2,0 Row",
    ),
];

// Checks what is told of these rows as a drive recording, and as drive centers.
fn tells_of_drives(
    rt: &impl Abort,
    heap: Global,
    rows: &str,
    of_recording: &str,
    of_centers: &str,
) -> Result<(), Fail> {
    let file = format!(in heap; "lag,torque,speed,temp\n{rows}")?;
    tells(rt, heap, &file, DRIVE_CENTERS, of_recording)?;
    tells(rt, heap, DRIVES, &file, of_centers)
}

#[test]
fn rows(rt: HostRuntime) -> Result<(), Fail> {
    let heap = rt.alloc();
    for (rows, expected) in TELEGRAM_ROWS {
        let recording = format!(in heap; "gap,length,hold\n{rows}")?;
        tells(&rt, heap, &recording, TELEGRAM_CENTERS, expected)?;
    }
    for (rows, expected) in TELEGRAM_CENTER_ROWS {
        let centers = format!(in heap; "gap,length\n{rows}")?;
        tells(&rt, heap, TELEGRAMS, &centers, expected)?;
    }
    for (rows, of_recording, of_centers) in DRIVE_ROWS {
        tells_of_drives(&rt, heap, rows, of_recording, of_centers)?;
    }
    for (recording, centers, expected) in BOTH {
        tells(&rt, heap, recording, centers, expected)?;
    }
    Ok(())
}
