//! The rows of one schema.
ghost use Rattle.std.specs.Prelude.{◌≡◌, ◌↔◌, IsTrue, All, AllPairs};
ghost use Rattle.plain_schema.specs.FirstForm.{AreApart};

use schema_rows::SchemaRow;
use sql_token::same_name;

/// Whether the second row may stand behind the first: a greater rowid, another name and another root.
fn is_apart(row: &SchemaRow, other: &SchemaRow) -> bool
    ensures { IsTrue result ↔ AreApart row.now other.now }
{
    row.rowid < other.rowid
        && !same_name(row.name.as_slice(), other.name.as_slice())
        && row.root != other.root
}

/// Whether each of the others may stand behind the row.
fn is_before(row: &SchemaRow, others: &[SchemaRow]) -> bool
    ensures { IsTrue result ↔ All (AreApart row.now) others.now }
{
    for other in others {
        if !is_apart(row, other) {
            return false;
        }
    }
    true
}

/// Whether the rows may stand in this order in one schema.
pub fn are_apart(rows: &[SchemaRow]) -> bool
    ensures { IsTrue result ↔ AllPairs AreApart rows.now }
{
    let mut rest = rows;
    while let [row, others @ ..] = rest {
        if !is_before(row, others) {
            return false;
        }
        rest = others;
    }
    true
}
