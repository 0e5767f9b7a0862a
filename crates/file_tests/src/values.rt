use crate::told::{DRIVE_CENTERS, DRIVES, TELEGRAM_CENTERS, TELEGRAMS, tells};
use std::alloc::Global;
use std::process::Abort;
use std::test::Fail;

// What spells no value.
const NOT_VALUES: [&str; 16] = [
    "-0", "+1", "007", "", "1000000", "-100000", " 1", "1 ", "1.0", "-", "--1", "1-", "00", "-01",
    "1e3", "1\r",
];

// Values outside 16 bits.
const BEYOND: [&str; 4] = ["32768", "-32769", "999999", "-99999"];

// The values at the ends of 16 bits.
const ENDS: [&str; 2] = ["-32768", "32767"];

// Rows of a telegram recording with a value outside the range of its column.
const OUTSIDE: [(&str, &str); 6] = [
    ("-1,10,1", "24,1,2,1 Value"),
    ("32768,10,1", "24,1,2,1 Value"),
    ("100,-1,1", "24,1,2,2 Value"),
    ("100,1501,1", "24,1,2,2 Value"),
    ("100,10,0", "24,1,2,3 Value"),
    ("100,10,65536", "24,1,2,3 Value"),
];

// Rows of a telegram recording with the values at the ends of the ranges, and what is told of the group.
const INSIDE: [(&str, &str); 2] = [
    ("0,0,1", "0,1,0,0"),
    ("32767,1500,65535", "0,65535,32767,1500"),
];

// Checks what is told of a value in the first column of a drive recording, and in the second of its centers.
fn refused(rt: &impl Abort, heap: Global, value: &str, number: u32) -> Result<(), Fail> {
    let recording = format!(in heap; "lag,torque,speed,temp\n{value},2,3,4\n")?;
    let expected = format!(in heap; "{number},1,2,1 Value")?;
    tells(rt, heap, &recording, DRIVE_CENTERS, &expected)?;
    let centers = format!(in heap; "lag,torque,speed,temp\n1,{value},3,4\n")?;
    let expected = format!(in heap; "{number},2,2,2 Value")?;
    tells(rt, heap, DRIVES, &centers, &expected)
}

// The same for the centers of a telegram recording.
fn refused_by_telegrams(
    rt: &impl Abort,
    heap: Global,
    value: &str,
    number: u32,
) -> Result<(), Fail> {
    let centers = format!(in heap; "length,gap\n10,100\n{value},100\n")?;
    let expected = format!(in heap; "{number},2,3,1 Value")?;
    tells(rt, heap, TELEGRAMS, &centers, &expected)
}

// Checks that the value is taken in a recording, and in the centers.
fn taken(rt: &impl Abort, heap: Global, value: &str) -> Result<(), Fail> {
    let recording = format!(in heap; "lag,torque,speed,temp\n{value},2,3,4\n")?;
    let expected = format!(in heap; "group,weight,lag,torque,speed,temp\n0,1,{value},2,3,4\n")?;
    tells(rt, heap, &recording, DRIVE_CENTERS, &expected)?;
    let centers = format!(in heap; "gap,length\n100,10\n100,{value}\n")?;
    let expected = format!(in heap; "group,weight,gap,length\n0,1,100,10\n1,0,100,{value}\n")?;
    tells(rt, heap, TELEGRAMS, &centers, &expected)
}

#[test]
fn values(rt: HostRuntime) -> Result<(), Fail> {
    let heap = rt.alloc();
    for value in NOT_VALUES {
        refused(&rt, heap, value, 23)?;
        refused_by_telegrams(&rt, heap, value, 23)?;
    }
    for value in BEYOND {
        refused(&rt, heap, value, 24)?;
        refused_by_telegrams(&rt, heap, value, 24)?;
    }
    for value in ENDS {
        taken(&rt, heap, value)?;
    }
    Ok(())
}

#[test]
fn ranges(rt: HostRuntime) -> Result<(), Fail> {
    let heap = rt.alloc();
    for (row, expected) in OUTSIDE {
        let recording = format!(in heap; "gap,length,hold\n{row}\n")?;
        tells(&rt, heap, &recording, TELEGRAM_CENTERS, expected)?;
    }
    for (row, group) in INSIDE {
        let recording = format!(in heap; "gap,length,hold\n{row}\n")?;
        let expected = format!(in heap; "group,weight,gap,length\n{group}\n")?;
        tells(&rt, heap, &recording, TELEGRAM_CENTERS, &expected)?;
    }
    // A value has the range of the name that it stands under.
    tells(
        &rt,
        heap,
        "hold,gap,length\n0,100,10\n",
        TELEGRAM_CENTERS,
        "24,1,2,1 Value",
    )?;
    tells(
        &rt,
        heap,
        "hold,length,gap\n1,1501,10\n",
        TELEGRAM_CENTERS,
        "24,1,2,2 Value",
    )
}
