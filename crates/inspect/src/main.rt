// Checks delivered files: says what each holds, or where its first fault is.
#![tactic(auto)]

mod input;
mod outline;
mod report;

use input::{read_file, read_stdin};
use outline::outline;
use report::{Report, inspect_text};
use std::process::ExitCode;
use std::{env, io};

fn main(rt: HostRuntime) -> anyhow::Result<ExitCode> {
    let mut with_tree = false;
    // Whether every file so far is well formed; none before the first.
    let mut so_far = None;
    for argument in env::args(&rt)?.skip(1) {
        let name = argument.as_str();
        if name == "--tree" {
            with_tree = true;
        } else {
            let one = inspect(&rt, name, read_file(&rt, name), with_tree)?;
            so_far = Some(so_far.unwrap_or(true) && one);
        }
    }
    let well_formed = match so_far {
        Some(all) => all,
        None => inspect(&rt, "<stdin>", read_stdin(&rt), with_tree)?,
    };
    // What is wrong with a file was printed already, so the status is all that is left to say.
    Ok(if well_formed {
        ExitCode::SUCCESS
    } else {
        ExitCode::FAILURE
    })
}

// Prints the report on one file, and its outline where that is wanted, and says whether the file is well formed.
fn inspect(
    rt: &HostRuntime,
    name: &str,
    bytes: io::Result<Vec<u8>>,
    with_tree: bool,
) -> anyhow::Result<bool> {
    let text = match bytes {
        Ok(text) => text,
        Err(error) => {
            let report = Report::unreadable(name, error);
            println!(rt; "{report}")?;
            return Ok(false);
        }
    };
    let report = inspect_text(name, text.as_slice());
    println!(rt; "{report}")?;
    if with_tree && report.well_formed() {
        rt.print(outline(rt.alloc(), text.as_slice())?)?;
    }
    Ok(report.well_formed())
}
