//! The laws of renamings. Each function is a law, and does nothing.
ghost use Rattle.name_rules.specs.Laws.{AddedStays, AddedTells, ClashesTell, OneIsMeant, SchemaStays, SchemaTells, UsesStay};

/// A use means one binder at most.
pub fn one_is_meant()
    ensures { OneIsMeant }
{}

/// Where a use does not clash, it means behind the renaming the counterpart of what it meant.
pub fn uses_stay()
    ensures { UsesStay }
{}

/// Where it clashes, it means something else behind the renaming, or nothing.
pub fn clash_tells()
    ensures { ClashesTell }
{}

/// Where no use of a schema clashes, each means behind the renaming the counterpart of what it meant.
pub fn schema_stays()
    ensures { SchemaStays }
{}

/// Where each use of a schema does, none clashes.
pub fn schema_tells()
    ensures { SchemaTells }
{}

/// Where no binder of an added column captures a use, it keeps its meaning.
pub fn added_stays()
    ensures { AddedStays }
{}

/// Where one does, it does not.
pub fn added_tells()
    ensures { AddedTells }
{}
