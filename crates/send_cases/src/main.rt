// Sends one block after another, each ordered by three lines of the input, and prints the answer to each.
#![tactic(auto)]

use one_block::{Lines, answer};
use std::io;

// No input has more orders than this. The bound is what makes the loop end, whatever is read.
const MOST: u32 = 1_000_000;

fn main(rt: HostRuntime) -> io::Result<()> {
    let mut contents = String::new(rt.alloc());
    let mut acu = String::new(rt.alloc());
    let mut marks = String::new(rt.alloc());
    for _ in 0..MOST {
        contents.clear();
        acu.clear();
        marks.clear();
        // The three lines are read as in `send_block`. A function for both would stand in a crate below, and would read input and
        // allocate, which only the programs do.
        if rt.read_line(&mut contents)? == 0 {
            break;
        }
        rt.read_line(&mut acu)?;
        rt.read_line(&mut marks)?;
        let answer = answer(Lines {
            contents: contents.as_bytes(),
            acu: acu.as_bytes(),
            marks: marks.as_bytes(),
        });
        print!(rt; "{answer}")?;
    }
    Ok(())
}
