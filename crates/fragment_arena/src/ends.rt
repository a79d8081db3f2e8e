// The places at which rows end.
ghost use Rattle.std.specs.Prelude.{◌≡◌, ◌+◌, ◌-◌, ◌≤◌, ◌++◌, length, map, vec_len, vec_capacity};
ghost use Rattle.fragment_arena.specs.Rows.{CanMove};

// Moves each end by the distance from `first` to `at`.
fn move_all(ends: &mut [u32], first: usize, at: usize)
    requires { CanMove first at ends.old }
    ensures { ends.new ≡ map (λ end. end - first + at) ends.old }
{
    for i in 0..ends.len() {
        ends[i] = (ends[i] as usize - first + at) as u32;
    }
}

/// Appends the ends, each moved by the distance from `first` to `at`.
pub(crate) fn push_moved(ends: &mut Vec<u32>, more: &[u32], first: usize, at: usize)
    requires slots { vec_len ends.old + length more.now ≤ vec_capacity ends.old }
    requires fits { CanMove first at more.now }
    ensures ends { ends.new.items ≡ ends.old.items ++ map (λ end. end - first + at) more.now }
    ensures slots { (vec_len ends.new ≡ vec_len ends.old + length more.now) × (vec_capacity ends.old ≤ vec_capacity ends.new) }
{
    let count = ends.len();
    match ends.extend_from_slice(more) {
        Ok(()) => {}
        Err(_) => unreachable!(),
    }
    move_all(ends.slice_mut(count..), first, at);
}
