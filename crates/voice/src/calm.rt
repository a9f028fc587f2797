// Calm frames: how many from a stage on have the same gain.
ghost use Rattle.std.specs.Prelude.{◌≡◌, ◌+◌, ◌<◌};
ghost use Rattle.voice.specs.Stages.{decay_at};
ghost use Rattle.voice.specs.Internal.Calm.{Steady, Calms};
ghost use Rattle.voice.specs.Internal.Stages.{RoomBy};

use crate::stages::decay_at;
use crate::{Stage, Voice};

// Frames until floor(1,000 * t / n) changes.
fn until_change(n: u32, t: u32) -> u32
    ensures { Steady n t result }
{
    if n == 0 {
        return 0;
    }
    let r = 1000 * (t as u64) % (n as u64);
    (((n as u64) - r + 999) / 1000) as u32
}

// The same, and no more than keep t a 32-bit count.
fn calm_count(n: u32, t: u32) -> u32
    ensures { Steady n t result × (t + result < 4294967296) }
{
    until_change(n, t).min(u32::MAX - t)
}

// No frame of an attack is calm: its level moves.
fn calm_attack(t: u32) -> u32
    ensures { (result ≡ 0) × (t + result < 4294967296) }
{
    0
}

// Frames in which a decay's cB stays; none where it has reached the sustain value.
fn calm_decay(n: u32, z: u16, t: u32) -> u32
    ensures { Steady n t result × (t + result < 4294967296) × (0 < result → decay_at n z t < z) }
{
    if z <= decay_at(n, z, t) {
        return 0;
    }
    calm_count(n, t)
}

// How many frames from stage s on are calm.
pub fn calm(v: Voice, s: Stage) -> u32
    ensures { Calms v s result × RoomBy result s }
{
    match s {
        Stage::Delay { .. } => 0,
        Stage::Attack { t } => calm_attack(t),
        Stage::Hold { t } => v.hold.saturating_sub(t),
        Stage::Decay { t } => calm_decay(v.decay, v.sustain, t),
        Stage::Sustain => 4294967295,
        Stage::Release { t, .. } => calm_count(v.release, t),
    }
}
