//! Jobs as texts: the command, what its options are set to, and its files.

use dae_base::Depths;
use dae_cli_options::{Costs, Options, RunOptions, Shown};
use dae_cli_words::Job;
use dae_machine::Schedule;
use std::alloc::{AllocError, Global};

/// The text of a job, with a blank between its parts.
pub fn text_of(alloc: Global, job: &Job<'_>) -> Result<String, AllocError> {
    let mut text = String::new(alloc);
    add_job(alloc, &mut text, job)?;
    Ok(text)
}

/// Adds a part behind a blank.
fn add(text: &mut String, part: &str) -> Result<(), AllocError> {
    text.push_str(" ")?;
    text.push_str(part)
}

/// Adds two parts.
fn add_both(text: &mut String, first: &str, second: &str) -> Result<(), AllocError> {
    add(text, first)?;
    add(text, second)
}

fn add_number(alloc: Global, text: &mut String, number: u64) -> Result<(), AllocError> {
    let part = format!(in alloc; "{number}")?;
    add(text, part.as_str())
}

fn add_all(text: &mut String, files: &[String]) -> Result<(), AllocError> {
    for file in files {
        add(text, file.as_str())?;
    }
    Ok(())
}

// Adds a job that compiles or runs.
fn add_job(alloc: Global, text: &mut String, job: &Job<'_>) -> Result<(), AllocError> {
    match job {
        Job::Run(c, o, files) => {
            text.push_str("run")?;
            add_running(alloc, text, o)?;
            add_compiling(alloc, text, c)?;
            add_all(text, files)
        }
        Job::Big(c, o, n) => {
            text.push_str("big")?;
            add_running(alloc, text, o)?;
            add_compiling(alloc, text, c)?;
            add_number(alloc, text, u64::from(*n))
        }
        Job::Compile(c, to, files) => {
            text.push_str("compile")?;
            add_compiling(alloc, text, c)?;
            add(text, to)?;
            add_all(text, files)
        }
        Job::Report(c, files) => {
            text.push_str("report")?;
            add_compiling(alloc, text, c)?;
            add_all(text, files)
        }
        Job::Exec(o, name) => {
            text.push_str("exec")?;
            add_running(alloc, text, o)?;
            add(text, name)
        }
        Job::Trace(o, name) => {
            text.push_str("trace")?;
            add_running(alloc, text, o)?;
            add(text, name)
        }
        _ => add_other(alloc, text, job),
    }
}

// Adds another job.
fn add_other(alloc: Global, text: &mut String, job: &Job<'_>) -> Result<(), AllocError> {
    match job {
        Job::Time(o, k, ticks, name) => {
            text.push_str("time")?;
            add_running(alloc, text, o)?;
            add_costs(alloc, text, k)?;
            add_number(alloc, text, *ticks)?;
            add(text, name)
        }
        Job::Check(d, name, other) => {
            text.push_str("check")?;
            add_depths(alloc, text, &d.depths())?;
            add_both(text, name, other)
        }
        Job::Debug(d, name, other) => {
            text.push_str("debug")?;
            add_depths(alloc, text, &d.depths())?;
            add_both(text, name, other)
        }
        Job::Guard(d, name, other) => {
            text.push_str("guard")?;
            add_depths(alloc, text, &d.depths())?;
            add_both(text, name, other)
        }
        Job::Asm(to, name) => {
            text.push_str("asm")?;
            add_both(text, to, name)
        }
        Job::Dis(name) => {
            text.push_str("dis")?;
            add(text, name)
        }
        _ => Ok(()),
    }
}

fn add_depths(alloc: Global, text: &mut String, d: &Depths) -> Result<(), AllocError> {
    let (ld, al, sa, sd) = (d.ld, d.al, d.sa, d.sd);
    let (ab, eb, cq) = (d.ab, d.eb, d.cq);
    let part = format!(in alloc; "{ld},{al},{sa},{sd},{ab},{eb},{cq}")?;
    add(text, part.as_str())
}

fn add_running(alloc: Global, text: &mut String, options: &RunOptions) -> Result<(), AllocError> {
    let o = options.values();
    add_depths(alloc, text, &o.depths)?;
    add_schedule(alloc, text, o.schedule)?;
    add_number(alloc, text, o.steps)?;
    add_shown(alloc, text, o.show)
}

fn add_schedule(alloc: Global, text: &mut String, schedule: Schedule) -> Result<(), AllocError> {
    match schedule {
        Schedule::Round => add(text, "round"),
        Schedule::A => add(text, "a"),
        Schedule::E => add(text, "e"),
        Schedule::Fill => add(text, "fill"),
        Schedule::Drain => add(text, "drain"),
        Schedule::Seed(seed) => {
            let part = format!(in alloc; "seed:{seed}")?;
            add(text, part.as_str())
        }
    }
}

fn add_shown(alloc: Global, text: &mut String, shown: Option<Shown>) -> Result<(), AllocError> {
    match shown {
        None => add(text, "-"),
        Some(shown) => {
            let part = format!(in alloc; "{shown:?}")?;
            add(text, part.as_str())
        }
    }
}

fn add_compiling(alloc: Global, text: &mut String, c: &Options) -> Result<(), AllocError> {
    let (memory, calls, cap) = (c.memory, c.calls, c.cap);
    let part = format!(in alloc; "{memory},{calls},{cap}")?;
    add(text, part.as_str())
}

fn add_costs(alloc: Global, text: &mut String, k: &Costs) -> Result<(), AllocError> {
    let (load, mul, div) = (k.load, k.mul, k.div);
    let part = format!(in alloc; "{load},{mul},{div}")?;
    add(text, part.as_str())
}
