ghost use Rattle.std.specs.Prelude.{◌≡◌, ◌≤◌, length, IsTrue, ◌↔◌, false};
ghost use Rattle.std.specs.List.{AllWithin};
ghost use Rattle.page_cells.specs.Taken.{marked};

/// Marks the places from `start` to `end`, where none of them is marked yet, and says whether it did.
pub fn take_places(taken: &mut [bool], start: usize, end: usize) -> bool
    requires order { start ≤ end }
    requires within { end ≤ length taken.old }
    ensures free { IsTrue result ↔ AllWithin (λ mark. mark ≡ false) taken.old start end }
    ensures marks { IsTrue result → taken.new ≡ marked taken.old start end }
{
    let places = &mut taken[start..end];
    if places.contains(&true) {
        return false;
    }
    places.fill(true);
    true
}
