// Words worked out by hand, read.
ghost use Rattle.std.specs.Prelude.{◌≡◌, map};
ghost use Rattle.words.specs.Examples.{examples, ExamplesAgree};

use super::codec::{Content, read};

/// What the numbers of the worked examples read as: five words, and two numbers that do not check.
#[tactic(auto, unfolding(coding::specs::Remainder::remainder_of))]
pub fn read_examples() -> [Option<Content>; 7]
    ensures definitions { ExamplesAgree }
    ensures read { result ≡ map (λ row. row.1) examples }
{
    [
        read(0x00000FF),
        read(0x00001F8),
        read(0x0008076),
        read(0x000FF0C),
        read(0x60015E9),
        read(0x00001F9),
        read(0x100001F8),
    ]
}
