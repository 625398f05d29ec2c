// A finished key: REQUIREMENT.md, section 5.
ghost use Rattle.std.specs.Prelude.{◌≡◌};
ghost use Rattle.frame.specs.Ops.{keyed};

use crate::Frame;
use table::bits;

// A finished key in a frame: its number, and its bit or, where it was seen or is unknown, the mark.
pub fn key_frame(frame: &mut Frame, key: u8)
    ensures { frame.new ≡ keyed key frame.old }
{
    if key < 128 {
        let i = 128 + key as usize;
        if bits::get_bit(frame, i) {
            frame[1] = key;
            frame[2] = 1;
        } else {
            frame[1] = key;
            bits::set_if(true, frame, i);
        }
    } else {
        frame[1] = 255;
        frame[2] = 1;
    }
}
