/// Why a trace or a book was not read. Places are bytes of the input, from 0. The first three come in the order of the
/// input.
#[derive(Clone, Copy, Debug, PartialEq, Eq)]
pub enum FormRefusal {
    /// The input ends inside the header, an entry or a record: `at` is its length.
    Cut { at: u64 },
    /// The entry or record at this place begins with `byte`, which is no kind.
    Kind { at: u64, byte: u8 },
    /// The field at this place has a value that is not allowed; in the header, the first byte that differs.
    Field { at: u64 },
    /// The input has more bytes than 67,108,864, or 67,108,872 as a book of version 2; or, at the place where it begins,
    /// one entry more than 1,000,000.
    Large { at: u64 },
    /// The source failed.
    ReadFault,
    /// There is no memory for the list.
    NoMemory,
}

/// Why bytes begin with no whole entry or record.
#[derive(Clone, Copy, Debug, PartialEq, Eq)]
pub enum Flaw {
    /// They end inside it.
    Cut,
    /// The first byte, which is no kind.
    Kind(u8),
    /// The field that stands this number of bytes from its beginning has a value that is not allowed.
    Field(usize),
}
