// A block on its way, and what was seen of it.
ghost use Rattle.std.specs.Prelude.{◌≡◌, ◌≤◌};
ghost use Rattle.acknowledgement.specs.Acu.{acu_of};
ghost use Rattle.blocks.specs.Block.{block_of, contents_of};
ghost use Rattle.one_block.specs.Passage.{passage_of, passages, readings, outcomes};

use answers::{Arrival, Report};
use orders::Order;
use std::array;
use words::{invert_last_bit, read};

// What is seen at a place where a word is sent.
fn arrival(marks: u32, place: u32, word: u32) -> Arrival
    requires { place ≤ 12 }
    ensures { result ≡ passage_of marks place word }
{
    let arrived = if (marks >> (12 - place)) % 2 == 1 {
        invert_last_bit(word)
    } else {
        word
    };
    Arrival {
        place,
        sent: word,
        arrived,
        reading: read(arrived),
    }
}

// Sends the block of an order, inverts the last bit at each marked place, and reads what arrives.
pub(crate) fn pass(order: Order) -> Report
    ensures seen { result ≡ passages order.marks (block_of order.block (acu_of order.acu)) }
    ensures outcome { readings result ≡ outcomes order.marks (contents_of order.block (acu_of order.acu)) }
{
    let Order { block, acu, marks } = order;
    let words = block.close(acu).send();
    Report {
        arrivals: array::from_fn(|i| arrival(marks, i as u32 + 1, words[i])),
    }
}
