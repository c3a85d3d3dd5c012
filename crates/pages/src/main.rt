//! A filing on standard input; on standard output its priced projects and their sums, or its refusal.
#![tactic(auto)]

use anyhow::Result;
use std::{env, io};
use streamed_pages::show_pages;

fn show_usage(rt: &impl Print) -> io::Result<()> {
    println!(rt; "pages works a filing and prints its priced projects and their sums.")?;
    println!(rt)?;
    println!(rt; "  pages < FILING")?;
    println!(rt)?;
    println!(rt;
        "A filing that is refused prints R, the number of the line, and the number of the refusal."
    )
}

fn main(rt: HostRuntime) -> Result<()> {
    if env::args(&rt)?.nth(1).is_some() {
        return Ok(show_usage(&rt)?);
    }
    Ok(show_pages(&rt, rt.stdin(), &mut io::writer(&rt))?)
}
