// Compares the placements that were recorded from the Linux md driver, one file to an argument, with the stock layouts.
// A file that is not there, or is no recording, is named with the reason; the others are compared all the same, and the run fails at the end.
#![tactic(auto)]

use anyhow::ensure;
use cases::worked_examples;
use std::{env, fs};
use vectors::{Comparison, Totals, compare};

// Tells how a recording compares.
fn tell(rt: &HostRuntime, name: &str, found: Comparison) -> anyhow::Result<()> {
    let Comparison {
        data,
        parities,
        differing,
        doubled,
        missing,
        same_capacity,
    } = found;
    if found.agrees() {
        println!(rt; "{name}: {data} copies, {parities} parities, all where md has them")?;
    } else {
        println!(rt;
            "{name}: DIFFERS: {differing} of {data} copies and {parities} parities lie elsewhere, {doubled} are doubled, {missing} missing"
        )?;
    }
    if !same_capacity {
        println!(rt; "{name}: DIFFERS: md makes another number of sectors of it")?;
    }
    Ok(())
}

// Compares one file and tells how it went.
fn compare_file(rt: &HostRuntime, so_far: Totals, name: &str) -> anyhow::Result<Totals> {
    let text = match fs::read_to_string(rt, name) {
        Ok(text) => text,
        Err(error) => {
            println!(rt; "{name}: NOT READ: {error}")?;
            return Ok(so_far.left_out());
        }
    };
    match compare(rt.alloc(), text.as_str()) {
        Ok(found) => {
            tell(rt, name, found)?;
            Ok(so_far.compared(found))
        }
        Err(reason) => {
            println!(rt; "{name}: NO RECORDING: {reason}")?;
            Ok(so_far.left_out())
        }
    }
}

fn main(rt: HostRuntime) -> anyhow::Result<()> {
    let examples = worked_examples();
    println!(rt; "{examples} worked examples are proved")?;
    let totals = env::args(&rt)?
        .skip(1)
        .try_fold(Totals::default(), |so_far, name| {
            compare_file(&rt, so_far, name.as_str())
        })?;
    let Totals {
        recordings,
        data,
        parities,
        differing,
        left_out,
    } = totals;
    println!(rt;
        "{recordings} recordings, {data} copies, {parities} parities, {differing} recordings differ, {left_out} files are left out"
    )?;
    ensure!(recordings > 0 || left_out > 0, "no file was named");
    ensure!(
        totals.all_agree(),
        "not every file is a recording that agrees"
    );
    Ok(())
}

#[cfg(test)]
mod tests {
    use super::*;
    use std::test::Fail;

    // Files that are not there are left out, one after the other.
    #[test]
    fn missing_files(rt: HostRuntime) -> Result<(), Fail> {
        let one = compare_file(&rt, Totals::default(), "not-there.txt")?;
        let two = compare_file(&rt, one, "not-there-either.txt")?;
        assert_eq!(rt; two.left_out, 2);
        Ok(())
    }
}
