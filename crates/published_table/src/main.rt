// Holds the words of the contents 000 to 0FF against the published table of one-byte remainders, which is read from the
// input: the last eight bits of each word have to be the inverted entry.
#![tactic(auto)]

ghost use Rattle.std.specs.Prelude.{◌≡◌, ◌%◌, ◌^◌, ◌&&◌, nat_lt};
ghost use Rattle.coding.specs.Word.{inverted, word_of};
ghost use Rattle.published_table.specs.Entry.{shows_remainder};
ghost use Rattle.text.specs.Number.{number_in};

use std::io::Read;
use text::{Fields, number};
use words::Content;

// The remainder that the word of a content shows: its last eight bits, each inverted.
fn remainder_in_word(content: Content) -> u32
    ensures { result ≡ inverted (word_of content % 2 ^ 8) }
{
    (content.word() % 256) ^ 0xff
}

// Whether an entry of the table is the remainder that the word of its content shows.
fn agrees(content: u32, entry: &[u8]) -> bool
    ensures { result ≡ nat_lt content (2 ^ 20) && shows_remainder content (number_in 16 entry.now) }
{
    // The remainder is worked out only for an entry that is a number.
    Content::try_from(content).is_ok_and(|content| number(16, entry).is_some_and(
        |remainder| remainder == remainder_in_word(content),
    ))
}

fn main(rt: HostRuntime) -> anyhow::Result<()> {
    let mut table = String::new(rt.alloc());
    rt.stdin().read_to_string(&mut table)?;
    // One pass over the table, since its fields are cut as they are taken. Each count stops at the largest `u32`.
    let (all, agreeing) = Fields::of(table.as_bytes())
        .zip(0..)
        .fold((0_u32, 0_u32), |(all, agreeing), (entry, content)| {
            let agree = u32::from(agrees(content, entry));
            (all.saturating_add(1), agreeing.saturating_add(agree))
        });
    println!(rt; "{all} entries, {agreeing} agree")?;
    Ok(())
}
