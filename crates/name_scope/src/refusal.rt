//! Why a command is refused.
use alter_bytes::Bytes;
use std::alloc::AllocError;

/// Why a command is refused, by the codes that the program prints, with their arguments in order. `at` counts bytes from the
/// start of a text, `rowid` is that of a row of the command's table where no table is named.
#[derive(Debug, Drop)]
pub enum Refusal {
    /// The text of the object can't be read at this place.
    Unreadable { object: Bytes, at: usize },
    /// The view, or a WITH of the object, stands on itself.
    Circular { object: Bytes },
    /// A use denotes nothing, or counts differ.
    Unresolved { object: Bytes, at: usize },
    /// No table or view has the name.
    NoSuchTable,
    /// The name is that of a view or a virtual table.
    NotATable,
    /// The table's name begins with `sqlite_`.
    Reserved,
    /// The new name begins with `sqlite_`.
    ReservedName,
    /// A table, view or index has the name.
    NameTaken,
    /// A use would denote something else.
    Capture { object: Bytes, at: usize },
    /// The table has no such column.
    NoSuchColumn,
    /// A column has the new name.
    ColumnTaken,
    /// The table would have more than 2000 columns.
    TooManyColumns,
    /// The column has or is in a PRIMARY KEY.
    PrimaryKey,
    /// The column has or is in a UNIQUE.
    Unique,
    /// The new column is generated and stored.
    StoredGenerated,
    /// A table has a generated column.
    GeneratedTable,
    /// The default is not constant.
    DefaultNotConstant { column: Option<Bytes> },
    /// NOT NULL has no default other than NULL.
    NotNullNeedsDefault,
    /// REFERENCES has a default other than NULL.
    ReferencesNeedsNull,
    /// The type is none of a STRICT table.
    StrictType,
    /// A fault stands in the definition.
    Definition { at: usize },
    /// The definition has a CHECK and the table a row.
    CheckWithRows,
    /// A record has more values than the table has columns.
    WideRow { rowid: i64 },
    /// Counts of columns would differ.
    Count { object: Bytes },
    /// The table has no other column.
    LastColumn,
    /// A key of the index uses the column.
    Indexed { index: Bytes },
    /// The WHERE of the index uses the column.
    PartialIndex { index: Bytes },
    /// A CHECK uses the column.
    Check,
    /// A foreign key from or to the column stands in the table.
    ForeignKey { table: Bytes, rowid: Option<i64> },
    /// A generated column uses the column.
    Generated { column: Bytes },
    /// A text uses the column.
    Appears { object: Bytes, at: usize },
    /// The table is keyed by its PRIMARY KEY.
    KeyedTable,
    /// The definition has another name.
    NameDiffers,
    /// The definitions differ in AUTOINCREMENT.
    Autoincrement,
    /// The new definition is STRICT.
    Strict,
    /// The index has a key that is no column, or a WHERE.
    ExpressionIndex { index: Bytes },
    /// A key has a collation that the program does not know.
    CustomCollation { collation: Bytes },
    /// A value needs a real number.
    Real { rowid: i64, column: Bytes },
    /// The new rowid is no integer.
    Rowid { rowid: i64 },
    /// A column with NOT NULL has NULL.
    NotNull { rowid: i64, column: Bytes },
    /// Two rowids or two unique keys are equal.
    Duplicate { first: i64, second: i64 },
    /// A new text is too long or too deep.
    TextLimit,
    /// The file or the schema would be too large.
    TooLarge,
}

/// Why there is no plan of a command.
#[derive(Debug, Drop)]
pub enum PlanError {
    Memory(AllocError),
    Refused(Refusal),
}

impl From<AllocError> for PlanError {
    ghost use Rattle.std.specs.Prelude.{◌≡◌};
    ghost use Rattle.name_scope.specs.declared.refusal.PlanError.TheVariants.{Memory};

    ghost from_gives = { λ fault e. e ≡ Memory fault };

    fn from(fault: AllocError) -> PlanError {
        PlanError::Memory(fault)
    }
}
