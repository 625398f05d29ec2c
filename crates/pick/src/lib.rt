// Pick: the record of a stream slice that has verdict n.
#![tactic(auto)]

ghost use Rattle.std.specs.Prelude.{◌≡◌};
ghost use Rattle.pick.specs.Pick.{pick_of};

const RS: u8 = 0x1E;

// The record that has verdict n, counted from 0, as a part of the caller's slice; an empty part where none has. Ruled out: a pick that counts
// empty parts, and one that forgets the record after the last RS.
pub fn pick(s: &[u8], n: usize) -> &[u8]
    ensures { result.now ≡ pick_of s.now n }
{
    let mut rest = s;
    let mut left = n;
    // Stays: a loop with a count: with `split`, `filter` and `nth` as one chain the goal `returns` is not proved.
    while let Some((part, behind)) = scan::cut(rest, RS) {
        if 0 < part.len() {
            if left == 0 {
                return part;
            }
            left -= 1;
        }
        rest = behind;
    }
    if left == 0 { rest } else { &[] }
}
