// What an order is, and the lines that it is read from. The functions stand in another file, since the definitions that their
// contracts cite name these types.
use acknowledgement::Acu;
use blocks::OpenBlock;

/// The three lines of an order: the contents, the fields of the ACU, and the marks.
#[derive(Clone, Copy, Debug)]
pub struct Lines<'a> {
    pub contents: &'a [u8],
    pub acu: &'a [u8],
    pub marks: &'a [u8],
}

/// A block to be sent: what was put into it, its ACU, and the places at which the last bit is inverted on the way, as a number
/// of twelve bits, place 1 the highest.
#[derive(Debug, Drop)]
pub struct Order {
    pub block: OpenBlock,
    pub acu: Acu,
    pub marks: u32,
}

// How the digits of a field make a number. It is an enum and no closure: a definition can take a `Form`, and of a closure it could
// only say what calls of it may answer.
#[derive(Clone, Copy, Debug, PartialEq, Eq)]
pub(crate) enum Form {
    // Exactly so many binary digits.
    Binary(usize),
    // Decimal digits.
    Decimal,
}
