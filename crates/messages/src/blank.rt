// Cells that hold nothing are zero. Four parts of the same length are tested in one loop, many cells at once: of two arrays the front
// half and the back half each.
ghost use Rattle.std.specs.Prelude.{◌≡◌, ◌≤◌, length, drop};
ghost use Rattle.messages.specs.Decides.{Decides};
ghost use Rattle.messages.specs.Messages.{Blank};

// Whether all cells of the four are zero.
fn all_four(front: &[u8], back: &[u8], other_front: &[u8], other_back: &[u8]) -> bool
    requires { (length back.now ≡ length front.now) × (length other_front.now ≡ length front.now)
        × (length other_back.now ≡ length front.now) }
    ensures { Decides result ((Blank front.now × Blank back.now)
        × (Blank other_front.now × Blank other_back.now)) }
{
    let cells = front.iter().zip(back);
    let others = other_front.iter().zip(other_back);
    let mut any: u8 = 0;
    for ((a, b), (c, d)) in cells.zip(others) {
        any |= a | b | c | d;
    }
    any == 0
}

// Whether all cells of both are zero from a place on. The two halves of an odd number of cells share the middle one.
pub fn from(start: usize, first: &[u8], second: &[u8]) -> bool
    requires { (length second.now ≡ length first.now) × (start ≤ length first.now) }
    ensures { Decides result (Blank (drop start first.now) × Blank (drop start second.now)) }
{
    let end = first.len();
    let back = start + (end - start) / 2;
    let middle = start + (end - back);
    all_four(
        &first[start..middle],
        &first[back..end],
        &second[start..middle],
        &second[back..end],
    )
}
