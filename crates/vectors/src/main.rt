// Plays stored scripts and compares each answer byte with that of an independent model of the rules.
#![tactic(auto)]

use anyhow::ensure;
use script::player::answers_to;
use script::record::RECORD;
use std::fs;

const NAMES: [&str; 4] = ["map-1", "map-2", "map-3", "map-4"];

// Plays one script, and says how it compares with the stored answers.
fn compare(rt: &HostRuntime, name: &str) -> anyhow::Result<()> {
    let heap = rt.alloc();
    let script = fs::read(rt, format!(in heap; "{name}.script")?.as_str())?;
    let stored = fs::read(rt, format!(in heap; "{name}.answers")?.as_str())?;
    let answers = answers_to(heap, script.as_slice())?;
    let bytes = script.len();
    let records = answers.len() / RECORD;
    ensure!(answers == stored, "an answer differs from the stored one");
    println!(rt; "{name}: {bytes} bytes, {records} answers, all equal")?;
    Ok(())
}

fn main(rt: HostRuntime) -> anyhow::Result<()> {
    for name in NAMES {
        compare(&rt, name)?;
    }
    Ok(())
}
