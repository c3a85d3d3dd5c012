//! Runs of the programs' own code on inputs in memory: what a stored run over standard input cannot show in one go.
#![tactic(auto)]

mod daybook;
mod inputs;
mod outputs;
mod pages;
mod worksheet;

use anyhow::Result;

fn main(rt: HostRuntime) -> Result<()> {
    pages::run(&rt)?;
    worksheet::run(&rt)?;
    daybook::run(&rt)
}
