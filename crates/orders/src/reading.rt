// An order, read from its three lines.
ghost use Rattle.std.specs.Prelude.{◌≡◌, OnErr};
ghost use Rattle.answers.specs.Troubled.{accepted, at_field};
ghost use Rattle.blocks.specs.Block.{leaving};
ghost use Rattle.orders.specs.Order.{contents_line, put_field, read_as, number_next, end_next, behind, acu_line, marks_line, order_from};
ghost use Rattle.text.specs.Field.{fields_of};
ghost use Rattle.text.specs.Number.{number_in};

use super::parts::{Form, Lines, Order};
use acknowledgement::{Acu, AcuFields};
use answers::{Fault, Trouble};
use blocks::OpenBlock;
use reserved::Codes;
use text::{Fields, number};

// One field of the first line: its content is put into the block.
fn put_field(block: &mut OpenBlock, field: &[u8]) -> Result<(), Trouble>
    ensures answer { leaving block.new result ≡ put_field (number_in 16 field.now) block.old }
    ensures same { OnErr result (block.new ≡ block.old) }
{
    let content = number(16, field).ok_or(Trouble::Unclear)?;
    block.put(content)?;
    Ok(())
}

// The first line: a block with its contents.
#[tactic(auto, using(crate::proofs::Faults::fault_stays))]
fn contents_line(codes: Codes, line: &[u8]) -> Result<OpenBlock, Fault>
    ensures { result ≡ contents_line codes line.now }
{
    let mut block = OpenBlock::begin(codes);
    for (field, place) in Fields::of(line).zip(1..) {
        put_field(&mut block, field).map_err(|trouble| trouble.at(1, place))?;
    }
    Ok(block)
}

// The number that a field makes.
fn number_as(form: Form, field: &[u8]) -> Option<u32>
    ensures { result ≡ read_as form field.now }
{
    match form {
        Form::Binary(digits) if field.len() != digits => None,
        Form::Binary(_) => number(2, field),
        Form::Decimal => number(10, field),
    }
}

// The number of the next field of a line.
fn next_number(fields: &mut Fields, form: Form) -> Result<u32, Trouble>
    ensures answer { result ≡ number_next form (fields_of fields.old.rest.now) }
    ensures rest { fields_of fields.new.rest.now ≡ behind (fields_of fields.old.rest.now) }
{
    let field = fields.next().ok_or(Trouble::Missing)?;
    number_as(form, field).ok_or(Trouble::Unclear)
}

// That a line has no further field.
fn no_more(fields: &mut Fields) -> Result<(), Trouble>
    ensures { result ≡ end_next (fields_of fields.old.rest.now) }
{
    // A match: `ok_or` makes `Some` the `Ok`, where here it is `None`, and `map_or(Ok(()), |_| Err(..))` is no plainer.
    match fields.next() {
        None => Ok(()),
        Some(_) => Err(Trouble::Unclear),
    }
}

// The second line: an ACU.
fn acu_line(line: &[u8]) -> Result<Acu, Fault>
    ensures { result ≡ acu_line line.now }
{
    let mut fields = Fields::of(line);
    let indicators = next_number(&mut fields, Form::Binary(11)).map_err(|trouble| trouble.at(
        2, 1,
    ))?;
    let acknowledged = next_number(&mut fields, Form::Decimal).map_err(|trouble| trouble.at(2, 2))?;
    let number = next_number(&mut fields, Form::Decimal).map_err(|trouble| trouble.at(2, 3))?;
    no_more(&mut fields).map_err(|trouble| trouble.at(2, 4))?;
    let place = if acknowledged < 8 { 3 } else { 2 };
    let fields = AcuFields {
        indicators,
        acknowledged,
        number,
    };
    Acu::try_from(fields).map_err(|refusal| Trouble::from(refusal).at(2, place))
}

// The third line: the marks.
fn marks_line(line: &[u8]) -> Result<u32, Fault>
    ensures { result ≡ marks_line line.now }
{
    let mut fields = Fields::of(line);
    let marks = next_number(&mut fields, Form::Binary(12)).map_err(|trouble| trouble.at(3, 1))?;
    no_more(&mut fields).map_err(|trouble| trouble.at(3, 2))?;
    Ok(marks)
}

/// An order from its three lines: the contents in hexadecimal, the fields of the ACU, and the marks. The block is begun with
/// the codes given.
pub fn read_order(codes: Codes, lines: Lines) -> Result<Order, Fault>
    ensures { result ≡ order_from codes lines.entry }
{
    let block = contents_line(codes, lines.contents)?;
    let acu = acu_line(lines.acu)?;
    let marks = marks_line(lines.marks)?;
    Ok(Order { block, acu, marks })
}
