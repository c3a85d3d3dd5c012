//! Page 1 and page 2 of a filing, or of a built-in task, on standard output.
#![tactic(auto)]

mod example;
mod task;

use anyhow::{Context, Result};
use printed_pages::show_filing;
use std::{env, io};

fn show_usage(rt: &impl Print) -> io::Result<()> {
    println!(rt; "worksheet works page 1 and page 2 of Attachment MM and Attachment CC.")?;
    println!(rt)?;
    println!(rt; "  worksheet < FILING     prints both pages of a filing, or why it is refused")?;
    println!(rt; "  worksheet --example    works a built-in task and prints both pages")
}

fn main(rt: HostRuntime) -> Result<()> {
    match env::args(&rt)?.nth(1) {
        None => Ok(show_filing(&rt, rt.stdin())?),
        Some(word) if word.as_str() == "--example" => {
            example::show_example(&rt).context("the pages cannot be written")
        }
        Some(_) => Ok(show_usage(&rt)?),
    }
}
