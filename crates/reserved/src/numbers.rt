// The settings of an installation's codes, as they are given from outside.

/// The codes as plain numbers: the contents of the changeover, the load-transfer and the load-transfer-acknowledgement signal,
/// and the synchronization pattern.
#[derive(Clone, Copy, Debug, PartialEq, Eq)]
pub struct CodeNumbers {
    pub changeover: u32,
    pub load_transfer: u32,
    pub acknowledgement: u32,
    pub pattern: u32,
}
