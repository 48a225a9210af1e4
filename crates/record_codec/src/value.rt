use alter_bytes::Bytes;

/// A value of a record (fileformat2.html, "Record Format").
#[derive(Debug, Drop)]
pub enum Value {
    Null,
    Int(i64),
    /// The eight bytes of a real as they are stored, which nothing here reads as a number.
    Real([u8; 8]),
    /// The bytes of a text, whatever they are.
    Text(Bytes),
    Blob(Bytes),
}
