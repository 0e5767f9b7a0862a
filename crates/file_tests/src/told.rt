use faults::program::ProgramFault;
use program::report::Report;
use program::run::run;
use std::alloc::{AllocError, Global};
use std::process::Abort;
use std::test::Fail;

// Recordings and centers with which nothing is wrong, for the tests of the other file.
pub(crate) const TELEGRAMS: &str = "gap,length,hold\n100,10,1\n";

pub(crate) const TELEGRAM_CENTERS: &str = "gap,length\n100,10\n";

pub(crate) const DRIVES: &str = "lag,torque,speed,temp\n1,2,3,4\n";

pub(crate) const DRIVE_CENTERS: &str = "lag,torque,speed,temp\n1,2,3,4\n";

// The lines that are printed of a report, each with its end.
fn told_of_report(heap: Global, report: &Report) -> Result<String, AllocError> {
    let mut text = format!(in heap; "{}\n", report.heading())?;
    for line in (0..report.count()).filter_map(|k| report.line(k)) {
        text.push_str(&format!(in heap; "{line}\n")?)?;
    }
    Ok(text)
}

// The line that is printed of a fault, and its layer.
fn told_of_fault(heap: Global, fault: &ProgramFault) -> Result<String, AllocError> {
    let report = fault.report();
    let layer = report.layer;
    format!(in heap; "{report} {layer:?}")
}

// What is told of two files. None is a file that cannot be opened.
pub(crate) fn told(
    heap: Global,
    recording: Option<&[u8]>,
    centers: Option<&[u8]>,
) -> Result<String, AllocError> {
    match run(recording, centers) {
        Ok(report) => told_of_report(heap, &report),
        Err(fault) => told_of_fault(heap, &fault),
    }
}

// Checks that just this is told of two files.
pub(crate) fn tells(
    rt: &impl Abort,
    heap: Global,
    recording: &str,
    centers: &str,
    expected: &str,
) -> Result<(), Fail> {
    let text = told(heap, Some(recording.as_bytes()), Some(centers.as_bytes()))?;
    assert_eq!(rt;
        text.as_str(),
        expected,
        "{}; {}",
        format_args!("recording {recording:?}"),
        format_args!("centers {centers:?}")
    );
    Ok(())
}
