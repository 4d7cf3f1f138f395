// What tests ask of the buffers that were lent to a call: a row, and whether entries are as they were.
#![tactic(auto)]

ghost use Rattle.std.specs.Prelude.{◌≡◌, [], ◌+◌, ◌*◌, ◌<◌, ◌≤◌, length, drop, slice_range};
ghost use Rattle.std.specs.List.{list_all};

// Where row b of rows of k entries starts.
pub fn row_at(b: usize, k: usize) -> usize
    requires { (b ≤ 7) × (k ≤ 6) }
    ensures place { result ≡ b * k }
    ensures small { result ≤ 42 }
{
    b * k
}

// Row b of rows of k entries, empty if it is not there.
pub fn row_of<T>(rows: &[T], b: usize, k: usize) -> &[T]
    requires { (b ≤ 6) × (k ≤ 6) }
    ensures there { b * k + k ≤ length rows.now → result.now ≡ slice_range rows.now (b * k) (b * k + k) }
    ensures beyond { length rows.now < b * k + k → result.now ≡ [] }
{
    let start = row_at(b, k);
    rows.get(start..start + k).unwrap_or_default()
}

// Are all entries from `at` on this value?
pub fn all_from<T: PartialEq + Copy>(entries: &[T], at: usize, value: T) -> bool
    ensures { result ≡ list_all (λ x. T.eq x value) (drop at entries.now) }
{
    entries.iter().skip(at).all(|entry| *entry == value)
}
