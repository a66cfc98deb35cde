// Sends the block that the first three lines of the input order, and prints what arrived or what is wrong with the order.
#![tactic(auto)]

use anyhow::anyhow;
use one_block::{Lines, answer};

fn main(rt: HostRuntime) -> anyhow::Result<()> {
    // The three lines are read as in `send_cases`. A function for both would stand in a crate below, and would read input and
    // allocate, which only the programs do.
    let mut contents = String::new(rt.alloc());
    let mut acu = String::new(rt.alloc());
    let mut marks = String::new(rt.alloc());
    rt.read_line(&mut contents)?;
    rt.read_line(&mut acu)?;
    rt.read_line(&mut marks)?;
    let answer = answer(Lines {
        contents: contents.as_bytes(),
        acu: acu.as_bytes(),
        marks: marks.as_bytes(),
    });
    print!(rt; "{answer}")?;
    answer.0.map_err(|_| anyhow!("the block was not sent"))?;
    Ok(())
}
