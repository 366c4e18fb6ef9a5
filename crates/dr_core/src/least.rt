//! The least of some handlers' counts.

ghost use Rattle.dr_graph.specs.Meaning.Graph.{flagged, least_of};
ghost use Rattle.std.specs.List.{range_with_len};
ghost use Rattle.std.specs.Prelude.{◌≡◌, ◌<◌, min, if◌then◌else◌, length, map, filter, slice_index, All};

/// The least count of some handlers, or 0 of none.
pub(crate) fn least_count(counts: &[u64], handlers: &[usize]) -> u64
    requires { All (λ h. h < length counts.now) handlers.now }
    ensures { result ≡ least_of (map (λ h. slice_index counts.now h) handlers.now) }
{
    let mut least = 0;
    for (i, h) in handlers.iter().enumerate() {
        let count = counts[*h];
        least = if i == 0 { count } else { least.min(count) };
    }
    least
}

/// The least count of the handlers that are flagged, or 0 of none.
pub(crate) fn least_flagged(counts: &[u64], flags: &[bool]) -> u64
    requires { length counts.now ≡ length flags.now }
    ensures { result ≡ least_of (map (λ h. slice_index counts.now h) (filter (flagged flags.now) (range_with_len 0 (length flags.now)))) }
{
    let mut found = false;
    let mut least = 0;
    for h in 0..flags.len() {
        if flags[h] {
            least = lesser(found, least, counts[h]);
            found = true;
        }
    }
    least
}

fn lesser(found: bool, least: u64, count: u64) -> u64
    ensures { result ≡ (if found then min least count else count) }
{
    if found { least.min(count) } else { count }
}
