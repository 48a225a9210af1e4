//! The checksum of a record.
ghost use Rattle.std.specs.Prelude.{◌≡◌, ◌≤◌, ◌+◌, ◌*◌, ◌/◌, length};
ghost use Rattle.rollback_journal.specs.Checksum.{checksum_of};

/// The distance in bytes between two places that are summed.
const STEP: usize = 200;

/// The checksum of a page (fileformat2.html, "The Rollback Journal"): the nonce and every 200th byte, counted
/// back from the end; the sum wraps.
pub fn checksum(nonce: u32, page: &[u8]) -> u32
    ensures sum { result ≡ checksum_of nonce page.now }
    ensures most { result ≤ nonce + 255 * (length page.now / 200) }
{
    let mut sum = nonce;
    for places in 0..page.len() / STEP {
        sum = sum.wrapping_add(page[page.len() - STEP * (places + 1)] as u32);
    }
    sum
}
