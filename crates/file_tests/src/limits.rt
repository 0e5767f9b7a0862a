use crate::told::{DRIVES, TELEGRAM_CENTERS, TELEGRAMS, tells, told};
use std::alloc::{AllocError, Global};
use std::process::Abort;
use std::test::Fail;

// A first line, and then a number of times the same row.
fn repeated(heap: Global, first: &str, row: &str, n: usize) -> Result<String, AllocError> {
    let mut text = String::from_str(heap, first)?;
    text.push_str(&row.repeat(heap, n)?)?;
    Ok(text)
}

// Checks what is told of a recording of this text and more behind it.
fn tells_after(
    rt: &impl Abort,
    heap: Global,
    text: &str,
    more: &str,
    expected: &str,
) -> Result<(), Fail> {
    let recording = format!(in heap; "{text}{more}")?;
    tells(rt, heap, &recording, TELEGRAM_CENTERS, expected)
}

// Files of 65,536 bytes, and longer.
#[test]
fn bytes(rt: HostRuntime) -> Result<(), Fail> {
    let heap = rt.alloc();
    let full = repeated(heap, "gap,length,hold\n", "32767,1500,6553\n", 4095)?;
    assert!(rt; full.len() == 65536);
    tells_after(
        &rt,
        heap,
        &full,
        "",
        "group,weight,gap,length\n0,26834535,32767,1500\n",
    )?;
    tells_after(&rt, heap, &full, "1", "26,1,0,0 Program")?;
    tells_after(&rt, heap, &full, "x,y\n\n", "26,1,0,0 Program")?;
    // A long file is too long before anything else is wrong with it.
    let names = repeated(heap, "", "x", 65536)?;
    tells_after(&rt, heap, &names, "", "21,1,1,0 File")?;
    tells_after(&rt, heap, &names, "x", "26,1,0,0 Program")?;
    tells(&rt, heap, TELEGRAMS, &names, "21,2,1,0 File")?;
    let longer = repeated(heap, "", "x", 65537)?;
    tells(&rt, heap, TELEGRAMS, &longer, "26,2,0,0 Program")?;
    tells(&rt, heap, &longer, &longer, "26,1,0,0 Program")?;
    tells(&rt, heap, "gap,length,hold\n", &longer, "1,1,0,0 File")
}

// Files that cannot be opened.
#[test]
fn missing(rt: HostRuntime) -> Result<(), Fail> {
    let heap = rt.alloc();
    let good: Option<&[u8]> = Some(TELEGRAMS.as_bytes());
    let centers: Option<&[u8]> = Some(TELEGRAM_CENTERS.as_bytes());
    let wrong: Option<&[u8]> = Some("gap,length,hold\n100,10,0\n".as_bytes());
    let cases = [
        (None, centers, "27,1,0,0 Program"),
        (None, None, "27,1,0,0 Program"),
        (None, wrong, "27,1,0,0 Program"),
        (good, None, "27,2,0,0 Program"),
        (wrong, None, "24,1,2,3 Value"),
    ];
    for (recording, centers, expected) in cases {
        let text = told(heap, recording, centers)?;
        assert_eq!(rt; text.as_str(), expected);
    }
    Ok(())
}

// As many rows as are taken, and one more.
#[test]
fn most_rows(rt: HostRuntime) -> Result<(), Fail> {
    let heap = rt.alloc();
    let full = repeated(heap, "gap,length,hold\n", "7,8,1\n", 4096)?;
    tells_after(
        &rt,
        heap,
        &full,
        "",
        "group,weight,gap,length\n0,4096,7,8\n",
    )?;
    for row in ["7,8,1\n", "7,8,0\n", "7,8\n", "\n", "x,8,1\n", "7,8,1", "x"] {
        tells_after(&rt, heap, &full, row, "2,1,4098,0 File")?;
    }
    let almost = repeated(heap, "gap,length,hold\n", "7,8,1\n", 4095)?;
    tells_after(&rt, heap, &almost, "7,8,0\n", "24,1,4097,3 Value")
}

// The report of one record around so many centers at one position, of which the first has the record.
fn one_grouped(heap: Global, n: usize) -> Result<String, AllocError> {
    let mut text = String::from_str(heap, "group,weight,gap,length\n0,1,100,10\n")?;
    // by its number, which is printed
    for k in 1..n {
        text.push_str(&format!(in heap; "{k},0,7,8\n")?)?;
    }
    Ok(text)
}

// As many centers as are taken, and one more.
#[test]
fn most_centers(rt: HostRuntime) -> Result<(), Fail> {
    let heap = rt.alloc();
    let full = repeated(heap, "gap,length\n", "7,8\n", 32)?;
    let expected = one_grouped(heap, 32)?;
    tells(&rt, heap, TELEGRAMS, &full, &expected)?;
    for row in ["7,8\n", "7,8,1\n", "\n", "7,x\n", "7,8", "x"] {
        let over = format!(in heap; "{full}{row}")?;
        tells(&rt, heap, TELEGRAMS, &over, "3,2,34,0 File")?;
    }
    let drives = repeated(heap, "lag,torque,speed,temp\n", "1,2,3,4\n", 33)?;
    tells(&rt, heap, DRIVES, &drives, "3,2,34,0 File")
}
