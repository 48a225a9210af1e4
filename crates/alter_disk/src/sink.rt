//! Where the output's bytes go.
ghost use Rattle.std.specs.Prelude.{◌≡◌, ◌<◌, ◌≤◌, ℕ, List, ◌++◌, length, take, option_map, IfOk, OnErr, Option};
ghost use Rattle.alter_disk.specs.Faults.{HasCause};

use crate::Failed;

/// A sink that bytes are added to.
pub trait Sink {
    /// The bytes that were written so far, where it tells them.
    ghost written: { Self → Option (List ℕ) };

    /// How often a write has failed.
    ghost faults: { Self → ℕ };

    /// Adds the first bytes of the piece, and answers how many: at least one, if it has any.
    fn write(&mut self, bytes: &[u8]) -> Result<usize, Failed>
        ensures count { IfOk result (λ n. n ≤ length bytes.now) }
        ensures some { 0 < length bytes.now → IfOk result (λ n. 0 < n) }
        ensures added { IfOk result (λ n. written self.new ≡ option_map (λ w. w ++ take n bytes.now) (written self.old)) }
        ensures kept { OnErr result (written self.new ≡ written self.old) }
        ensures cause { HasCause (faults self.old) (faults self.new) result };
}
