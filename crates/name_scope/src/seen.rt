//! Whether a use sees a binder under a spelling.
ghost use Rattle.std.specs.Prelude.{◌≡◌};
ghost use Rattle.name_scope.specs.Sees.{is_named, is_seen, same_names};

use crate::Sight;
use alter_bytes::Bytes;
use sql_token::same_name;

/// Whether two names are equal, where ASCII letters of either case are.
pub fn same_names(a: &[u8], b: &[u8]) -> bool
    ensures { result ≡ same_names a.now b.now }
{
    same_name(a, b)
}

/// Whether there is a name, and it is this one.
fn is_named(name: &Bytes, own: &Option<Bytes>) -> bool
    ensures { result ≡ is_named name.now own.now }
{
    match own {
        Some(own) => same_names(own.as_slice(), name.as_slice()),
        None => false,
    }
}

/// Whether a use of this spelling sees the binder: of a name, of the name of a source and a name, or of `main` before these.
pub fn is_seen(spelling: &[Bytes], s: &Sight) -> bool
    ensures { result ≡ is_seen spelling.now s.now }
{
    match spelling {
        [name] => !s.qualified_only && is_named(name, &s.binder.name),
        [source, name] => is_named(source, &s.qualifier) && is_named(name, &s.binder.name),
        [database, source, name] => {
            same_names(database.as_slice(), b"main")
                && is_named(source, &s.qualifier)
                && is_named(name, &s.binder.name)
        }
        _ => false,
    }
}
