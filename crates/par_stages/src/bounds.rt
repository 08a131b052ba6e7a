//! Into how many pieces lists are cut, and where.
ghost use Rattle.std.specs.Prelude.{◌≡◌, ◌+◌, ◌^◌, ◌<◌, ◌≤◌, length};
ghost use Rattle.par_stages.specs.Placed.{cut_at, first_pieces, piece_count as count_of, placed};

/// How many items a thread is worth: starting one takes about as long as going through these.
const LEAST: usize = 4096;

/// How many of the workers a list of n items is worth, where no fewer than `least` are asked for.
pub fn workers_for(n: usize, least: u32, workers: u32) -> u32
    requires some { 0 < workers }
    requires least { 0 < least }
    ensures some { 0 < result }
    ensures most { result ≤ workers }
{
    let worth = u32::try_from(n / LEAST).unwrap_or(workers);
    worth.max(least).min(workers)
}

/// Into how many pieces a list of n items is cut: the lesser of `workers` and n, and at least 1.
pub fn piece_count(n: usize, workers: u32) -> u32
    requires some { 0 < workers }
    ensures value { result ≡ count_of n workers }
    ensures some { 0 < result }
    ensures most { result ≤ workers }
{
    u32::try_from(n).unwrap_or(workers).min(workers).max(1)
}

/// Where piece j of k begins, in a list of n items.
fn cut(n: usize, k: u32, j: u32) -> usize
    requires some { 0 < k }
    requires few { k ≤ 64 }
    requires at_most { j ≤ k }
    requires small { n < 2 ^ 63 }
    ensures place { result ≡ cut_at n k j }
    ensures within { result ≤ n }
{
    (u128::from(j) * n as u128 / u128::from(k)) as usize
}

/// The place where piece j of k begins, and the one before which it ends, in a list of n items.
pub fn piece_bounds(n: usize, k: u32, j: u32) -> (usize, usize)
    requires before { j < k }
    requires few { k ≤ 64 }
    requires small { n < 2 ^ 63 }
    ensures start { result.0 ≡ cut_at n k j }
    ensures end { result.1 ≡ cut_at n k (j + 1) }
    ensures order { result.0 ≤ result.1 }
    ensures within { result.1 ≤ n }
{
    (cut(n, k, j), cut(n, k, j + 1))
}

/// The pieces, one after the other, are the whole list.
pub fn pieces_are_all<T>(items: &[T], k: u32)
    requires some { 0 < k }
    ensures value { first_pieces k k items.now ≡ placed 0 items.now }
{}
