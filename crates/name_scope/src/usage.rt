//! The uses of names in a text.
use crate::Identity;
use sqlite_items::Items;

/// What a use asks for, by the rule of the grammar at its place.
#[derive(Clone, Copy, Debug, PartialEq, Eq)]
pub enum UseKind {
    /// What stands at its level and outward alone: a column, a name in USING, a name that is set or listed, a NATURAL, the
    /// name before `.*`.
    Sighted,
    /// A WITH name or an object: a source, the table after IN, the target of a statement.
    Source,
    /// A table function: a name before parentheses.
    Function,
    /// The table of an index, the table or view of a trigger.
    Owner,
    /// The name after INDEXED BY of a source that is the object of this row.
    Index(u32),
    /// The table after REFERENCES.
    Parent,
}

/// What a use denotes.
#[derive(Drop)]
pub enum Target {
    /// A binder, and the source of which it is a column.
    One {
        source: Option<Identity>,
        what: Identity,
    },
    /// A name in USING: the column to the left and the one on the right.
    Two(Identity, Identity),
    /// A NATURAL: each pair of columns that it joins, the left one first.
    Pairs(Items<(Identity, Identity)>),
    /// A name after REFERENCES without a list: the table, then the columns of its primary key.
    Keys(Items<Identity>),
    /// A text, or a truth value.
    Literal,
    /// A name after REFERENCES, or in its list, that nothing has.
    Unbound,
}

/// A use of a name in the text of the object of a row: its first and its last token, from where the one starts to where the
/// other ends.
#[derive(Drop)]
pub struct Use {
    pub row: u32,
    pub start: usize,
    pub end: usize,
    /// The number of the level at which it stands.
    pub level: u32,
    pub kind: UseKind,
    pub target: Target,
}
