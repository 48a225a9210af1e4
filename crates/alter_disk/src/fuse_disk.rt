//! A disk that stops after some calls.
ghost use Rattle.std.specs.Prelude.{◌≡◌, ◌⊎◌, ◌+◌, ◌^◌, ◌<◌, ◌≤◌, true, false, length, is_ok, IfSome, IsSomeAnd, IfOk, OnOk, OnErr};
ghost use Rattle.alter_disk.specs.Files.{Files, file};
ghost use Rattle.alter_disk.specs.Changes.{IfTold, ReadsAt, Written, Torn, TornIn, CutTo, CutShort, CutIn, ChangesOne};
ghost use Rattle.alter_disk.specs.Crash.{After, NoMore, Elapses};
ghost use Rattle.alter_disk.specs.Faults.{HasCause, HasOpenCause};
ghost use Rattle.alter_disk.specs.Rest.{KeepsRest};
ghost use Rattle.alter_disk.specs.Fused.{Fused, unspent, is_called, is_open, Burns, Opens, ReadsOn, WritesOn};

use crate::fault::raise;
use crate::{Disk, Failed, OpenFault, Which};
use std::marker::Model;

/// A disk that passes so many calls on to another one, and then fails every call and changes nothing: what is
/// left of it then is what a stop between two calls leaves.
#[derive(Drop)]
pub struct FuseDisk<D: Disk> {
    inner: D,
    left: u64,
    was_called: bool,
    was_refused: bool,
    reads_refused: u64,
    writes_refused: u64,
}

impl<D: Disk> Model for FuseDisk<D> {
    ghost Value = { Fused D };

    ghost view = { λ f. record {
      inner = f.inner;
      left = f.left;
      called = f.was_called;
      refused = f.was_refused;
      reads_refused = f.reads_refused;
      writes_refused = f.writes_refused;
    } };
}

impl<D: Disk> FuseDisk<D> {
    pub fn new(inner: D, k: u64) -> FuseDisk<D>
        ensures { result ≡ unspent inner k }
    {
        FuseDisk {
            inner,
            left: k,
            was_called: false,
            was_refused: false,
            reads_refused: 0,
            writes_refused: 0,
        }
    }

    pub fn inner(&self) -> &D
        ensures { result.now ≡ self.now.inner }
    {
        &self.inner
    }
}

impl<D: Disk> Disk for FuseDisk<D> {
    ghost label = { λ f. D.label f.inner };

    ghost called = { λ f. is_called D.called f };

    ghost opened = { λ f. is_open D.opened f };

    ghost files = { λ f. D.files f.inner };

    ghost may_leave = { λ f. D.may_leave f.inner };

    ghost moment = { λ f. D.moment f.inner };

    ghost left_since = { λ f. D.left_since f.inner };

    ghost read_faults = { λ f. D.read_faults f.inner + f.reads_refused };

    ghost write_faults = { λ f. D.write_faults f.inner + f.writes_refused };

    ghost counts_now = { λ f. D.counts_now f.inner };

    ghost only_now = { λ f. D.only_now f.inner };

    ghost tells = { λ f. D.tells f.inner };

    fn open(&mut self, name: &str) -> Result<(), OpenFault>
        requires first { is_called D.called self.old ≡ false }
        requires name { IfSome (D.label self.old.inner) (λ known. name.now ≡ known) }
        ensures burns { Burns (Opens D.Disk) self.old self.new result }
        ensures called { is_called D.called self.new ≡ true }
        ensures opened { is_open D.opened self.new ≡ is_ok result }
        ensures files { D.files self.new.inner ≡ D.files self.old.inner }
        ensures label { D.label self.new.inner ≡ D.label self.old.inner }
        ensures cause { HasOpenCause (D.read_faults self.old.inner + self.old.reads_refused) (D.read_faults self.new.inner + self.new.reads_refused) result }
        ensures other { D.write_faults self.new.inner + self.new.writes_refused ≡ D.write_faults self.old.inner + self.old.writes_refused }
        ensures crash { NoMore (D.may_leave self.old.inner) (D.may_leave self.new.inner) }
        ensures time { Elapses (D.moment self.old.inner) (D.moment self.new.inner) (D.left_since self.old.inner) (D.left_since self.new.inner) (D.may_leave self.new.inner) }
    {
        self.was_called = true;
        self.was_refused = self.left == 0;
        if self.left == 0 {
            return Err(raise(&mut self.reads_refused).into());
        }
        self.left -= 1;
        self.inner.open(name)
    }

    fn len(&mut self, which: Which) -> Result<u64, Failed>
        requires { is_called D.called self.old ≡ true }
        ensures burns { Burns (ReadsOn D.Disk) self.old self.new result }
        ensures len { IfOk result (λ n. IfTold (D.files self.old.inner) (λ f. n ≡ length (file which f))) }
        ensures files { D.files self.new.inner ≡ D.files self.old.inner }
        ensures rest { KeepsRest (λ f. D.label f.inner) (λ f. is_called D.called f) (λ f. is_open D.opened f) (λ f. D.write_faults f.inner + f.writes_refused) self.old self.new }
        ensures cause { HasCause (D.read_faults self.old.inner + self.old.reads_refused) (D.read_faults self.new.inner + self.new.reads_refused) result }
        ensures crash { NoMore (D.may_leave self.old.inner) (D.may_leave self.new.inner) }
        ensures time { Elapses (D.moment self.old.inner) (D.moment self.new.inner) (D.left_since self.old.inner) (D.left_since self.new.inner) (D.may_leave self.new.inner) }
    {
        if self.left == 0 {
            return Err(raise(&mut self.reads_refused));
        }
        self.was_called = true;
        self.left -= 1;
        self.inner.len(which)
    }

    fn read(&mut self, which: Which, at: u64, buf: &mut [u8]) -> Result<usize, Failed>
        requires called { is_called D.called self.old ≡ true }
        requires place { (at ≤ 2 ^ 30) ⊎ IsSomeAnd (D.files self.old.inner) (λ f. at ≤ length (file which f)) }
        ensures burns { Burns (ReadsOn D.Disk) self.old self.new result }
        ensures count { IfOk result (λ n. n ≤ length buf.old) }
        ensures read { IfOk result (λ n. IfTold (D.files self.old.inner) (λ f. ReadsAt (file which f) at n buf.old buf.new)) }
        ensures files { D.files self.new.inner ≡ D.files self.old.inner }
        ensures rest { KeepsRest (λ f. D.label f.inner) (λ f. is_called D.called f) (λ f. is_open D.opened f) (λ f. D.write_faults f.inner + f.writes_refused) self.old self.new }
        ensures cause { HasCause (D.read_faults self.old.inner + self.old.reads_refused) (D.read_faults self.new.inner + self.new.reads_refused) result }
        ensures crash { NoMore (D.may_leave self.old.inner) (D.may_leave self.new.inner) }
        ensures time { Elapses (D.moment self.old.inner) (D.moment self.new.inner) (D.left_since self.old.inner) (D.left_since self.new.inner) (D.may_leave self.new.inner) }
    {
        if self.left == 0 {
            return Err(raise(&mut self.reads_refused));
        }
        self.was_called = true;
        self.left -= 1;
        self.inner.read(which, at, buf)
    }

    fn write(&mut self, which: Which, at: u64, bytes: &[u8]) -> Result<(), Failed>
        requires called { is_called D.called self.old ≡ true }
        requires place { at + length bytes.now ≤ 2 ^ 30 }
        ensures burns { Burns (WritesOn D.Disk) self.old self.new result }
        ensures written { OnOk result (Written which at bytes.now (D.files self.old.inner) (D.files self.new.inner)) }
        ensures torn { OnErr result (TornIn which at (length bytes.now) (D.files self.old.inner) (D.files self.new.inner)) }
        ensures rest { KeepsRest (λ f. D.label f.inner) (λ f. is_called D.called f) (λ f. is_open D.opened f) (λ f. D.read_faults f.inner + f.reads_refused) self.old self.new }
        ensures cause { HasCause (D.write_faults self.old.inner + self.old.writes_refused) (D.write_faults self.new.inner + self.new.writes_refused) result }
        ensures crash { (c : Files) → D.may_leave self.new.inner c → After (ChangesOne which (Torn at (length bytes.now))) (D.may_leave self.old.inner) c }
        ensures time { Elapses (D.moment self.old.inner) (D.moment self.new.inner) (D.left_since self.old.inner) (D.left_since self.new.inner) (D.may_leave self.new.inner) }
    {
        if self.left == 0 {
            return Err(raise(&mut self.writes_refused));
        }
        self.was_called = true;
        self.left -= 1;
        self.inner.write(which, at, bytes)
    }

    fn cut(&mut self, which: Which, len: u64) -> Result<(), Failed>
        requires called { is_called D.called self.old ≡ true }
        requires shorter { IfTold (D.files self.old.inner) (λ f. len ≤ length (file which f)) }
        ensures burns { Burns (WritesOn D.Disk) self.old self.new result }
        ensures cut { OnOk result (CutTo which len (D.files self.old.inner) (D.files self.new.inner)) }
        ensures torn { OnErr result (CutIn which len (D.files self.old.inner) (D.files self.new.inner)) }
        ensures rest { KeepsRest (λ f. D.label f.inner) (λ f. is_called D.called f) (λ f. is_open D.opened f) (λ f. D.read_faults f.inner + f.reads_refused) self.old self.new }
        ensures cause { HasCause (D.write_faults self.old.inner + self.old.writes_refused) (D.write_faults self.new.inner + self.new.writes_refused) result }
        ensures crash { (c : Files) → D.may_leave self.new.inner c → After (ChangesOne which (CutShort len)) (D.may_leave self.old.inner) c }
        ensures time { Elapses (D.moment self.old.inner) (D.moment self.new.inner) (D.left_since self.old.inner) (D.left_since self.new.inner) (D.may_leave self.new.inner) }
    {
        if self.left == 0 {
            return Err(raise(&mut self.writes_refused));
        }
        self.was_called = true;
        self.left -= 1;
        self.inner.cut(which, len)
    }

    fn sync(&mut self, which: Which) -> Result<(), Failed>
        requires { is_called D.called self.old ≡ true }
        ensures burns { Burns (WritesOn D.Disk) self.old self.new result }
        ensures files { D.files self.new.inner ≡ D.files self.old.inner }
        ensures rest { KeepsRest (λ f. D.label f.inner) (λ f. is_called D.called f) (λ f. is_open D.opened f) (λ f. D.read_faults f.inner + f.reads_refused) self.old self.new }
        ensures cause { HasCause (D.write_faults self.old.inner + self.old.writes_refused) (D.write_faults self.new.inner + self.new.writes_refused) result }
        ensures durable { OnOk result ((c : Files) → D.may_leave self.new.inner c → IsSomeAnd (D.files self.new.inner) (λ f. file which c ≡ file which f)) }
        ensures crash { NoMore (D.may_leave self.old.inner) (D.may_leave self.new.inner) }
        ensures time { Elapses (D.moment self.old.inner) (D.moment self.new.inner) (D.left_since self.old.inner) (D.left_since self.new.inner) (D.may_leave self.new.inner) }
    {
        if self.left == 0 {
            return Err(raise(&mut self.writes_refused));
        }
        self.was_called = true;
        self.left -= 1;
        self.inner.sync(which)
    }
}
