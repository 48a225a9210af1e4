/// The kind of a call that met a fault: `open`, `len` and `read` read; `write`, `cut` and `sync` write.
#[derive(Clone, Copy, Debug, PartialEq, Eq)]
pub enum Way {
    Read,
    Write,
}
