use crate::Bytes;

/// A cell of a table tree as it is read: its rowid and its whole payload, overflow pages included.
#[derive(Debug, Drop)]
pub struct RowCell {
    pub rowid: i64,
    pub payload: Bytes,
}

/// A cell that is to be written into a table tree: its rowid and its whole payload.
#[derive(Debug, Drop)]
pub struct NewCell {
    pub rowid: i64,
    pub payload: Bytes,
}
