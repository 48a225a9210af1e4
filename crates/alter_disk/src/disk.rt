//! The disk as the pager sees it.
ghost use Rattle.std.specs.Prelude.{◌≡◌, ◌⊎◌, ◌+◌, ◌^◌, ◌≤◌, ℕ, Bool, true, false, List, length, is_ok, IfSome, IsSome, IsSomeAnd, IfOk, OnOk, OnErr, Option};
ghost use Rattle.alter_disk.specs.Files.{Files, file};
ghost use Rattle.alter_disk.specs.Changes.{IfTold, ReadsAt, Written, Torn, TornIn, CutTo, CutShort, CutIn, ChangesOne};
ghost use Rattle.alter_disk.specs.Crash.{After, NoMore, Elapses};
ghost use Rattle.alter_disk.specs.Faults.{HasCause, HasOpenCause};
ghost use Rattle.alter_disk.specs.Rest.{KeepsRest};

use crate::{Failed, OpenFault, Which};

/// A disk with two files. Offsets and lengths are in bytes, from 0.
///
/// Where a disk tells nothing of its bytes, the clauses on bytes are empty and those on faults hold.
pub trait Disk: Drop {
    /// The one name that it takes, where it tells one.
    ghost label: { Self → Option (List ℕ) };

    /// Whether `open` has been called.
    ghost called: { Self → Bool };

    /// Whether `open` has succeeded.
    ghost opened: { Self → Bool };

    /// The bytes of both files as a read gives them, where it tells them.
    ghost files: { Self → Option Files };

    /// What a crash now may leave of both files.
    ghost may_leave: { Self → Files → Type 0 };

    /// The moment by the disk's own clock, a number that never falls.
    ghost moment: { Self → ℕ };

    /// What a crash at some moment from that one on may have left, in a call or between two.
    ghost left_since: { Self → ℕ → Files → Type 0 };

    /// How often a call of `open`, `len` or `read` has failed.
    ghost read_faults: { Self → ℕ };

    /// How often a call of `write`, `cut` or `sync` has failed.
    ghost write_faults: { Self → ℕ };

    /// Opens the database `name`, which has to be there, and its journal, which is made empty where it
    /// is missing, durably. It comes once, before all other calls, which ask for it.
    fn open(&mut self, name: &str) -> Result<(), OpenFault>
        requires first { called self.old ≡ false }
        requires name { IfSome (label self.old) (λ known. name.now ≡ known) }
        ensures called { called self.new ≡ true }
        ensures opened { opened self.new ≡ is_ok result }
        ensures files { files self.new ≡ files self.old }
        ensures label { label self.new ≡ label self.old }
        ensures cause { HasOpenCause (read_faults self.old) (read_faults self.new) result }
        ensures other { write_faults self.new ≡ write_faults self.old }
        ensures crash { NoMore (may_leave self.old) (may_leave self.new) }
        ensures time { Elapses (moment self.old) (moment self.new) (left_since self.old) (left_since self.new) (may_leave self.new) };

    /// The length of a file.
    fn len(&mut self, which: Which) -> Result<u64, Failed>
        requires { called self.old ≡ true }
        ensures len { IfOk result (λ n. IfTold (files self.old) (λ f. n ≡ length (file which f))) }
        ensures files { files self.new ≡ files self.old }
        ensures rest { KeepsRest label called opened write_faults self.old self.new }
        ensures cause { HasCause (read_faults self.old) (read_faults self.new) result }
        ensures crash { NoMore (may_leave self.old) (may_leave self.new) }
        ensures time { Elapses (moment self.old) (moment self.new) (left_since self.old) (left_since self.new) (may_leave self.new) };

    /// Reads from `at` on, and answers how many bytes came: fewer than asked only at the file's end.
    /// After a fault the buffer may hold anything.
    fn read(&mut self, which: Which, at: u64, buf: &mut [u8]) -> Result<usize, Failed>
        requires called { called self.old ≡ true }
        requires place { (at ≤ 2 ^ 30) ⊎ IsSomeAnd (files self.old) (λ f. at ≤ length (file which f)) }
        ensures count { IfOk result (λ n. n ≤ length buf.old) }
        ensures read { IfOk result (λ n. IfTold (files self.old) (λ f. ReadsAt (file which f) at n buf.old buf.new)) }
        ensures files { files self.new ≡ files self.old }
        ensures rest { KeepsRest label called opened write_faults self.old self.new }
        ensures cause { HasCause (read_faults self.old) (read_faults self.new) result }
        ensures crash { NoMore (may_leave self.old) (may_leave self.new) }
        ensures time { Elapses (moment self.old) (moment self.new) (left_since self.old) (left_since self.new) (may_leave self.new) };

    /// Writes over what is there and past the end. Between the old end and `at` there are zeros then, also
    /// where the piece is empty.
    fn write(&mut self, which: Which, at: u64, bytes: &[u8]) -> Result<(), Failed>
        requires called { called self.old ≡ true }
        requires place { at + length bytes.now ≤ 2 ^ 30 }
        ensures written { OnOk result (Written which at bytes.now (files self.old) (files self.new)) }
        ensures torn { OnErr result (TornIn which at (length bytes.now) (files self.old) (files self.new)) }
        ensures rest { KeepsRest label called opened read_faults self.old self.new }
        ensures cause { HasCause (write_faults self.old) (write_faults self.new) result }
        ensures crash { (c : Files) → may_leave self.new c → After (ChangesOne which (Torn at (length bytes.now))) (may_leave self.old) c }
        ensures time { Elapses (moment self.old) (moment self.new) (left_since self.old) (left_since self.new) (may_leave self.new) };

    /// Shortens a file to `len` bytes.
    fn cut(&mut self, which: Which, len: u64) -> Result<(), Failed>
        requires called { called self.old ≡ true }
        requires shorter { IfTold (files self.old) (λ f. len ≤ length (file which f)) }
        ensures cut { OnOk result (CutTo which len (files self.old) (files self.new)) }
        ensures torn { OnErr result (CutIn which len (files self.old) (files self.new)) }
        ensures rest { KeepsRest label called opened read_faults self.old self.new }
        ensures cause { HasCause (write_faults self.old) (write_faults self.new) result }
        ensures crash { (c : Files) → may_leave self.new c → After (ChangesOne which (CutShort len)) (may_leave self.old) c }
        ensures time { Elapses (moment self.old) (moment self.new) (left_since self.old) (left_since self.new) (may_leave self.new) };

    /// Makes durable what a read gives of this file.
    fn sync(&mut self, which: Which) -> Result<(), Failed>
        requires { called self.old ≡ true }
        ensures files { files self.new ≡ files self.old }
        ensures rest { KeepsRest label called opened read_faults self.old self.new }
        ensures cause { HasCause (write_faults self.old) (write_faults self.new) result }
        ensures durable { OnOk result ((c : Files) → may_leave self.new c → IsSomeAnd (files self.new) (λ f. file which c ≡ file which f)) }
        ensures crash { NoMore (may_leave self.old) (may_leave self.new) }
        ensures time { Elapses (moment self.old) (moment self.new) (left_since self.old) (left_since self.new) (may_leave self.new) };

    /// This moment is one of those since an earlier one.
    ghost counts_now: { (d : Self) (t : ℕ) (c : Files) → t ≤ moment d → may_leave d c → left_since d t c };

    /// Since this moment there is no other.
    ghost only_now: { (d : Self) (c : Files) → left_since d (moment d) c → may_leave d c };

    /// A disk that tells nothing of its bytes says nothing of crashes.
    ghost tells: { (d : Self) (c : Files) → may_leave d c → IsSome (files d) };
}
