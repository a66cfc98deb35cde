// The fields of an acknowledgement unit, as they are given from outside.

/// The fields of an ACU as plain numbers: eleven indicators, the first unit's highest (0 accepted, 1 not), the number of the block
/// acknowledged, and the number of the ACU's own block.
#[derive(Clone, Copy, Debug, PartialEq, Eq)]
pub struct AcuFields {
    pub indicators: u32,
    pub acknowledged: u32,
    pub number: u32,
}
