//! A call that stopped before its end.
use crate::stop::Stop;
use alter_disk::Disk;

/// Why a call stopped, and the disk that is handed back.
#[derive(Drop)]
pub struct Halted<D: Disk> {
    pub disk: D,
    pub stop: Stop,
}
