use anyhow::anyhow;
use faults::program::ProgramFault;
use program::report::Report;
use std::io;

fn print_report(rt: &HostRuntime, report: &Report) -> io::Result<()> {
    println!(rt; "{}", report.heading())?;
    for line in (0..report.count()).filter_map(|k| report.line(k)) {
        println!(rt; "{line}")?;
    }
    Ok(())
}

fn print_fault(rt: &HostRuntime, fault: &ProgramFault) -> io::Result<()> {
    println!(rt; "refused,file,line,column")?;
    println!(rt; "{}", fault.report())
}

// Prints what the program answers. A fault is an error of the program too, once it is printed.
pub fn show(rt: &HostRuntime, answer: Result<Report, ProgramFault>) -> anyhow::Result<()> {
    match answer {
        Ok(report) => {
            print_report(rt, &report)?;
            Ok(())
        }
        Err(fault) => {
            print_fault(rt, &fault)?;
            Err(anyhow!("refused"))
        }
    }
}
