// Where a register is on a path.
ghost use Rattle.std.specs.Prelude.{◌≡◌, true, is_some, IsTrue};
ghost use Rattle.net_graph.specs.Path.{is_in};

/// Whether a register is at a place of a path.
fn is_at(path: &[u32], i: usize, reg: u32) -> bool
    ensures { IsTrue result → is_in path.now reg ≡ true }
{
    i < path.len() && path[i] == reg
}

/// Where a register is on a path.
fn place_on(path: &[u32], reg: u32) -> Option<usize>
    ensures { is_some result ≡ is_in path.now reg }
{
    for i in 0..path.len() {
        if path[i] == reg {
            return Some(i);
        }
    }
    None
}

/// The same, looked for after a place first, and before it.
pub(crate) fn place_near(path: &[u32], last: usize, reg: u32) -> Option<usize>
    ensures { is_some result ≡ is_in path.now reg }
{
    let following = last.saturating_add(1);
    if is_at(path, following, reg) {
        return Some(following);
    }
    let front = last.saturating_sub(1);
    if is_at(path, front, reg) {
        return Some(front);
    }
    place_on(path, reg)
}
