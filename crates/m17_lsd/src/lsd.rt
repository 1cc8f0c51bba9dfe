use m17_values::Address;

/// Link setup data of 28 bytes. M17 Protocol Specification, link setup data.
#[derive(Clone, Copy, Debug, PartialEq, Eq)]
pub struct Lsd {
    /// The address sent to, bytes 0 to 5.
    pub dst: Address,
    /// The sender's address, bytes 6 to 11.
    pub src: Address,
    /// The TYPE field, big-endian, bytes 12 and 13.
    pub kind: u16,
    /// The META field, bytes 14 to 27.
    pub meta: [u8; 14],
}
