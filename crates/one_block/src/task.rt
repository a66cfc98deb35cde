// The whole task: one block is ordered by three lines, sent, and looked at.
ghost use Rattle.std.specs.Prelude.{◌≡◌};
ghost use Rattle.answers.specs.Print.{answer_text};
ghost use Rattle.one_block.specs.Task.{codes_used, reported, read_in, arrived};
ghost use Rattle.orders.specs.Order.{order_from};

use super::passage::pass;
use answers::{Fault, Printed, Report};
use orders::{Lines, read_order};
use reserved::{CodeNumbers, Codes};

// The codes that the block is made with.
fn codes_used() -> Codes
    ensures { result ≡ codes_used }
{
    Codes::try_from(CodeNumbers {
        changeover: 0xA0001,
        load_transfer: 0xA0002,
        acknowledgement: 0xA0003,
        pattern: 0xB000,
    })
    .unwrap()
}

/// Sends the block that three lines order and reports what arrived, or says what is wrong with the lines. The first line has
/// the contents, the second the fields of the ACU, and the third the places at which the last bit is inverted on the way.
pub fn send_block(lines: Lines) -> Result<Report, Fault>
    ensures seen { result ≡ reported (order_from codes_used lines.entry) }
    ensures outcome { read_in result ≡ arrived (order_from codes_used lines.entry) }
{
    let order = read_order(codes_used(), lines)?;
    Ok(pass(order))
}

/// The same as it is printed, from the bytes of the lines to the bytes of the answer.
pub fn answer(lines: Lines) -> Printed
    ensures value { result.0 ≡ reported (order_from codes_used lines.entry) }
    ensures printed { answer_text result.0 ≡ answer_text (reported (order_from codes_used lines.entry)) }
{
    Printed(send_block(lines))
}
