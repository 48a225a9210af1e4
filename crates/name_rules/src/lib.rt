//! What each name in the texts of a schema stands for, and where a renaming clashes.
#![tactic(auto)]

mod laws;

pub use laws::{
    added_stays, added_tells, clash_tells, one_is_meant, schema_stays, schema_tells, uses_stay,
};
