//! Where the script's bytes come from.
ghost use Rattle.std.specs.Prelude.{◌≡◌, ◌<◌, ◌≤◌, ℕ, List, [], length, drop, option_map, IfOk, OnErr, Option};
ghost use Rattle.alter_disk.specs.Changes.{IfTold, Gives};
ghost use Rattle.alter_disk.specs.Faults.{HasCause};

use crate::Failed;

/// A source of bytes that are read once, from first to last.
pub trait Source {
    /// The bytes that are left, where it tells them.
    ghost left: { Self → Option (List ℕ) };

    /// How often a read has failed.
    ghost faults: { Self → ℕ };

    /// Moves the next bytes into the front of `buf`, and answers how many. 0 for a buffer that is not
    /// empty is the end. After a fault the buffer may hold anything.
    fn read(&mut self, buf: &mut [u8]) -> Result<usize, Failed>
        ensures count { IfOk result (λ n. n ≤ length buf.old) }
        ensures read { IfOk result (λ n. IfTold (left self.old) (λ bytes. Gives bytes n buf.old buf.new)) }
        ensures taken { IfOk result (λ n. left self.new ≡ option_map (drop n) (left self.old)) }
        ensures end { IfOk result (λ n. n ≡ 0 → 0 < length buf.old → IfTold (left self.old) (λ bytes. bytes ≡ [])) }
        ensures kept { OnErr result (left self.new ≡ left self.old) }
        ensures cause { HasCause (faults self.old) (faults self.new) result };
}
