/// One of a disk's two files: the database NAME, or its rollback journal NAME-journal
/// (fileformat2.html, "The Rollback Journal").
#[derive(Clone, Copy, Debug, PartialEq, Eq)]
pub enum Which {
    Db,
    Journal,
}
