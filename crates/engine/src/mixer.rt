// The mixer: the stereo frame of two sums of voices, exact (01, "A voice, frame by frame").
ghost use Rattle.std.specs.Prelude.{◌≡◌, pos, negsuc};
ghost use Rattle.arith.specs.Floats.{Over};
ghost use Rattle.arith.specs.Holds.{held_to};
ghost use Rattle.arith.specs.Within.{Within};
ghost use Rattle.engine.specs.Mixer.{unit_of, mixed};

use crate::Frame;
use arith::hold;

// k / 2^23, exactly.
fn to_unit(k: i32) -> f32
    requires { Within k 8388608 }
    ensures { (result ≡ unit_of k) × Over result k 8388608 }
{
    (k as f32) * 0.00000011920928955078125
}

// A sum of voices, held to -2^23..2^23.
fn clamp(k: i32) -> i32
    ensures { (result ≡ held_to (negsuc 8388607) (pos 8388608) k) × Within result 8388608 }
{
    hold(-8388608, 8388608, k as i64) as i32
}

// The stereo frame of two sums of voices.
pub fn mix(l: i32, r: i32) -> Frame
    ensures left { result.left ≡ mixed l }
    ensures right { result.right ≡ mixed r }
    ensures left_exact { Over result.left (held_to (negsuc 8388607) (pos 8388608) l) 8388608 }
    ensures right_exact { Over result.right (held_to (negsuc 8388607) (pos 8388608) r) 8388608 }
{
    Frame {
        left: to_unit(clamp(l)),
        right: to_unit(clamp(r)),
    }
}
