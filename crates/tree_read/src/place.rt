/// Where a cell stands: the number of its page, and its place among that page's cells, from 0.
#[derive(Clone, Copy, Debug, PartialEq, Eq)]
pub struct Place {
    pub page: u32,
    pub cell: usize,
}

/// The rowids that a page may hold: more than `low`, and `high` at most.
#[derive(Clone, Copy)]
pub(crate) struct Limits {
    pub low: Option<i64>,
    pub high: Option<i64>,
}
