//! A source that fails once.
ghost use Rattle.std.specs.Prelude.{◌≡◌, ◌+◌, ◌<◌, ◌≤◌, [], length, drop, option_map, IfOk, OnErr};
ghost use Rattle.alter_disk.specs.Changes.{IfTold, Gives};
ghost use Rattle.alter_disk.specs.Faults.{HasCause};
ghost use Rattle.alter_disk.specs.Failing.{Failing, unread, FailsAt};

use crate::fault::raise;
use crate::{Failed, Source};
use std::marker::Model;

/// A source that passes its calls on to another one, but for one, which fails. Calls are numbered from 0.
#[derive(Drop)]
pub struct FailSource<S: Source + Drop> {
    inner: S,
    at: u64,
    made: u64,
    refused: u64,
}

impl<S: Source + Drop> Model for FailSource<S> {
    ghost Value = { Failing S };

    ghost view = { λ s. record { inner = s.inner; at = s.at; made = s.made; refused = s.refused } };
}

impl<S: Source + Drop> FailSource<S> {
    pub fn new(inner: S, at: u64) -> FailSource<S>
        ensures { result ≡ unread inner at }
    {
        FailSource {
            inner,
            at,
            made: 0,
            refused: 0,
        }
    }
}

impl<S: Source + Drop> Source for FailSource<S> {
    ghost left = { λ s. S.left s.inner };

    ghost faults = { λ s. S.faults s.inner + s.refused };

    fn read(&mut self, buf: &mut [u8]) -> Result<usize, Failed>
        ensures fails { FailsAt S.faults self.old self.new result }
        ensures count { IfOk result (λ n. n ≤ length buf.old) }
        ensures read { IfOk result (λ n. IfTold (S.left self.old.inner) (λ bytes. Gives bytes n buf.old buf.new)) }
        ensures taken { IfOk result (λ n. S.left self.new.inner ≡ option_map (drop n) (S.left self.old.inner)) }
        ensures end { IfOk result (λ n. n ≡ 0 → 0 < length buf.old → IfTold (S.left self.old.inner) (λ bytes. bytes ≡ [])) }
        ensures kept { OnErr result (S.left self.new.inner ≡ S.left self.old.inner) }
        ensures cause { HasCause (S.faults self.old.inner + self.old.refused) (S.faults self.new.inner + self.new.refused) result }
    {
        let number = self.made;
        self.made = self.made.saturating_add(1);
        if number == self.at {
            return Err(raise(&mut self.refused));
        }
        self.inner.read(buf)
    }
}
