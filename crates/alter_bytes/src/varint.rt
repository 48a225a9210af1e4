ghost use Rattle.std.specs.Prelude.{◌≡◌, ◌≤◌, ◌<◌, ℕ, ◌+◌, ◌-◌, ◌^◌, List, ◌++◌, length, take, drop, Some, IfSome, IfNone};
ghost use Rattle.alter_bytes.specs.Varint.{IsVarint, higher_septets, septet_bytes, varint, varint_at, varint_from};

/// The most bytes that a varint takes.
const MAX_LEN: usize = 9;

/// The number of the varint at `at` and its length in bytes, or `None` where the bytes end inside it
/// (fileformat2.html, "Record Format").
pub fn read_varint(b: &[u8], at: usize) -> Option<(u64, usize)>
    ensures exact { result ≡ varint_at b.now at }
    ensures found { IfSome result (λ read. (at + read.1 ≤ length b.now) × IsVarint (take read.1 (drop at b.now)) read.0) }
    ensures none { IfNone result ((n v : ℕ) → IsVarint (take n (drop at b.now)) v → ⊥) }
{
    if b.len() < at {
        return None;
    }
    read_rest(&b[at..], MAX_LEN - 1, 0)
}

/// Reads on in a varint whose bytes so far hold the number `high`, where up to `more` bytes of seven
/// bits may still come.
fn read_rest(rest: &[u8], more: usize, high: u64) -> Option<(u64, usize)>
    requires few { more ≤ 8 }
    requires small { high < 128 ^ (8 - more) }
    ensures { result ≡ varint_from more high rest.now }
{
    let (first, behind) = rest.split_first()?;
    let byte = *first;
    if more == 0 {
        return Some((high * 256 + byte as u64, MAX_LEN));
    }
    if byte < 128 {
        return Some((high * 128 + byte as u64, MAX_LEN - more));
    }
    read_rest(behind, more - 1, high * 128 + (byte % 128) as u64)
}

/// The length in bytes of the shortest varint of `v`.
pub fn varint_len(v: u64) -> usize
    ensures { result ≡ length (varint v) }
{
    1 + count_higher(8, v)
}

/// How many groups of seven bits `v` has above its lowest one, counted up to `most`.
fn count_higher(most: usize, v: u64) -> usize
    requires { most ≤ 8 }
    ensures { result ≡ higher_septets most v }
{
    if most == 0 || v < 128 {
        return 0;
    }
    1 + count_higher(most - 1, v / 128)
}

/// Writes the shortest varint of `v` at the start of `out`, and gives its length in bytes.
pub fn write_varint(v: u64, out: &mut [u8; 9]) -> usize
    ensures written { take result out.new ≡ varint v }
    ensures rest { drop result out.new ≡ drop result out.old }
    ensures length { result ≡ length (varint v) }
{
    let higher = count_higher(8, v);
    if higher < 8 {
        out[higher] = (v % 128) as u8;
        write_septets(out, higher, v / 128);
    } else {
        out[8] = (v % 256) as u8;
        write_septets(out, 8, v / 256);
    }
    higher + 1
}

/// Fills the first `n` bytes with the lowest groups of seven bits of `v`, the top bit set in each.
fn write_septets(out: &mut [u8; 9], n: usize, v: u64)
    requires { n ≤ 8 }
    ensures { out.new ≡ septet_bytes n v ++ drop n out.old }
{
    if n > 0 {
        out[n - 1] = 128 + (v % 128) as u8;
        write_septets(out, n - 1, v / 128);
    }
}

/// No varint begins another, and each has one number.
pub fn one_varint()
    ensures { (a b x y : List ℕ) (m n : ℕ) → IsVarint a m → IsVarint b n → a ++ x ≡ b ++ y → (a ≡ b) × (m ≡ n) }
{}

/// `varint` gives the shortest of a number's varints, which reads back whatever stands around it.
pub fn shortest_varint()
    ensures is_varint { (v : ℕ) → v < 2 ^ 64 → IsVarint (varint v) v }
    ensures shortest { (v : ℕ) (bytes : List ℕ) → IsVarint bytes v → length (varint v) ≤ length bytes }
    ensures reads_back { (v : ℕ) (front rest : List ℕ) → v < 2 ^ 64 → varint_at (front ++ varint v ++ rest) (length front) ≡ Some (v, length (varint v)) }
{}
