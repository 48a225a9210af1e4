//! What is kept of one page.
ghost use Rattle.std.specs.Prelude.{◌≡◌, ◌≤◌, ◌+◌, length, option_copied, IfSome};
ghost use Rattle.alter_bytes.specs.Field.{overlaid};
ghost use Rattle.pager_core.specs.Slots.{HasRoom, changed_slot, forgotten, is_changed_in, settled, shown_in};

use alter_bytes::Bytes;
use std::mem;

/// A page that was not read, one as it was first read, or one that was changed, with its bytes before
/// that if it was read then.
#[derive(Drop)]
pub(crate) enum Slot {
    Unread,
    Same(Bytes),
    Changed(Bytes, Option<Bytes>),
}

impl Slot {
    /// The page's bytes.
    pub(crate) fn shown(&self) -> Option<&[u8]>
        ensures { option_copied result ≡ shown_in self.now }
    {
        match self {
            Slot::Unread => None,
            Slot::Same(bytes) => Some(bytes.as_slice()),
            Slot::Changed(bytes, _) => Some(bytes.as_slice()),
        }
    }

    pub(crate) fn is_changed(&self) -> bool
        ensures { result ≡ is_changed_in self.now }
    {
        match self {
            Slot::Unread | Slot::Same(_) => false,
            Slot::Changed(_, _) => true,
        }
    }

    /// Writes `piece` into the page. Where it was not changed before, its copy is made in `room`.
    pub(crate) fn change(&mut self, room: Vec<u8>, at: usize, piece: &[u8])
        requires room { HasRoom (length room.items) self.old }
        requires fits { IfSome (shown_in self.old) (λ bytes. at + length piece.now ≤ length bytes) }
        ensures { self.new ≡ changed_slot at piece.now self.old }
    {
        let slot = mem::replace(self, Slot::Unread);
        *self = slot.changed(room, at, piece);
    }

    /// Drops the page's changes.
    pub(crate) fn forget(&mut self)
        ensures { self.new ≡ forgotten self.old }
    {
        let slot = mem::replace(self, Slot::Unread);
        *self = slot.forgotten();
    }

    /// Keeps the page's changes, which no longer count as such.
    pub(crate) fn settle(&mut self)
        ensures { self.new ≡ settled self.old }
    {
        let slot = mem::replace(self, Slot::Unread);
        *self = slot.settled();
    }

    fn changed(self, room: Vec<u8>, at: usize, piece: &[u8]) -> Slot
        requires room { HasRoom (length room.items) self }
        requires fits { IfSome (shown_in self) (λ bytes. at + length piece.now ≤ length bytes) }
        ensures { result ≡ changed_slot at piece.now self }
    {
        match self {
            Slot::Unread => Slot::Unread,
            Slot::Same(bytes) => {
                let copy = copy_into(room, bytes.as_slice());
                Slot::Changed(write_at(copy, at, piece), Some(bytes))
            }
            Slot::Changed(bytes, original) => {
                Slot::Changed(write_at(bytes.into_vec(), at, piece), original)
            }
        }
    }

    fn forgotten(self) -> Slot
        ensures { result ≡ forgotten self }
    {
        match self {
            Slot::Unread => Slot::Unread,
            Slot::Same(bytes) => Slot::Same(bytes),
            Slot::Changed(_, original) => match original {
                Some(bytes) => Slot::Same(bytes),
                None => Slot::Unread,
            },
        }
    }

    fn settled(self) -> Slot
        ensures { result ≡ settled self }
    {
        match self {
            Slot::Unread => Slot::Unread,
            Slot::Same(bytes) => Slot::Same(bytes),
            Slot::Changed(bytes, _) => Slot::Same(bytes),
        }
    }
}

fn copy_into(mut room: Vec<u8>, bytes: &[u8]) -> Vec<u8>
    requires { length room.items ≡ length bytes.now }
    ensures { result.items ≡ bytes.now }
{
    room.as_mut_slice().copy_from_slice(bytes);
    room
}

fn write_at(mut bytes: Vec<u8>, at: usize, piece: &[u8]) -> Bytes
    requires { at + length piece.now ≤ length bytes.items }
    ensures { result ≡ overlaid bytes.items at piece.now }
{
    bytes[at..at + piece.len()].copy_from_slice(piece);
    Bytes::new(bytes)
}
