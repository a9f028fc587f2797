// A delay: frames in which nothing is heard and the place stands, all in one.
ghost use Rattle.std.specs.Prelude.{◌≡◌, ◌<◌, min};
ghost use Rattle.voice.specs.Internal.Wait.{left_in};

use crate::Stage;

// The frames that a delay has left, none in other stages.
fn left_in(s: Stage) -> u32
    ensures { result ≡ left_in s }
{
    match s {
        Stage::Delay { left } => left,
        _ => 0,
    }
}

// How many of the next frames are frames of a delay.
pub fn wait(s: Stage, most: usize) -> usize
    ensures { (result ≡ min (left_in s) most) × (result < 4294967296) }
{
    // In this order, since `(left_in(s) as usize).min(most)` costs 4.2 % of the voice loop's instructions.
    most.min(left_in(s) as usize)
}
