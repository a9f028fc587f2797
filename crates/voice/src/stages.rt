// Stages: the envelope, the attack's level, leaving spent stages, frames more spent.
ghost use Rattle.std.specs.Prelude.{◌≡◌, ◌≤◌, ◌<◌};
ghost use Rattle.voice.specs.Internal.Stages.{RoomBy, Roomy};
ghost use Rattle.voice.specs.Stages.{level_at, decay_at, release_at, envelope, from_decay, from_hold, from_attack, from_delay, entered, dead, waiting, released, spent_by};

use crate::{Stage, Voice};

// The attack's level in frame t of n.
pub fn level_at(n: u32, t: u32) -> u32
    ensures { (result ≡ level_at n t) × (result ≤ 16777216) }
{
    if n == 0 {
        return 0;
    }
    (16777216 * (t as u64) / (n as u64)).min(16777216) as u32
}

// The decay's cB in frame t of n.
pub fn decay_at(n: u32, z: u16, t: u32) -> u16
    ensures { result ≡ decay_at n z t }
{
    if n == 0 {
        return z;
    }
    (1000 * (t as u64) / (n as u64)).min(z as u64) as u16
}

// The release's cB in frame t of n, from a.
pub fn release_at(n: u32, a: u16, t: u32) -> u64
    ensures { (result ≡ release_at n a t) × (result < 8796093022208) }
{
    if n == 0 {
        return 1000;
    }
    (a as u64) + 1000 * (t as u64) / (n as u64)
}

// The envelope's cB.
pub fn envelope_of(v: Voice, s: Stage) -> u64
    ensures { (result ≡ envelope v s) × (result < 8796093022208) }
{
    match s {
        Stage::Delay { .. } | Stage::Attack { .. } | Stage::Hold { .. } => 0,
        Stage::Decay { t } => u64::from(decay_at(v.decay, v.sustain, t)),
        Stage::Sustain => u64::from(v.sustain),
        Stage::Release { from, t } => release_at(v.release, from, t),
    }
}

// Frame t of decay, or what follows.
fn from_decay(v: Voice, t: u32) -> Stage
    ensures { result ≡ from_decay v t }
{
    if v.sustain <= decay_at(v.decay, v.sustain, t) {
        Stage::Sustain
    } else {
        Stage::Decay { t }
    }
}

// Frame t of hold, or what follows.
fn from_hold(v: Voice, t: u32) -> Stage
    ensures { result ≡ from_hold v t }
{
    if v.hold <= t {
        from_decay(v, 0)
    } else {
        Stage::Hold { t }
    }
}

// Frame t of attack, or what follows.
fn from_attack(v: Voice, t: u32) -> Stage
    ensures { result ≡ from_attack v t }
{
    if v.attack <= t {
        from_hold(v, 0)
    } else {
        Stage::Attack { t }
    }
}

// A delay, or what follows.
fn from_delay(v: Voice, left: u32) -> Stage
    ensures { result ≡ from_delay v left }
{
    if left == 0 {
        from_attack(v, 0)
    } else {
        Stage::Delay { left }
    }
}

// Spent stages are left.
pub fn enter(v: Voice, s: Stage) -> Stage
    ensures { (result ≡ entered v s) × Roomy v result }
{
    match s {
        Stage::Delay { left } => from_delay(v, left),
        Stage::Attack { t } => from_attack(v, t),
        Stage::Hold { t } => from_hold(v, t),
        Stage::Decay { t } => from_decay(v, t),
        Stage::Sustain => Stage::Sustain,
        Stage::Release { from, t } => Stage::Release { from, t },
    }
}

// The envelope has died away.
pub fn is_dead(v: Voice, s: Stage) -> bool
    ensures { result ≡ dead v s }
{
    match s {
        Stage::Delay { .. } | Stage::Attack { .. } | Stage::Hold { .. } => false,
        Stage::Decay { t } => 1000 <= decay_at(v.decay, v.sustain, t),
        Stage::Sustain => 1000 <= v.sustain,
        Stage::Release { from, t } => 1000 <= release_at(v.release, from, t),
    }
}

// In delay.
pub fn is_waiting(s: Stage) -> bool
    ensures { result ≡ waiting s }
{
    matches!(s, Stage::Delay { .. })
}

// Released: a loop of mode 3 folds no longer.
pub fn is_released(s: Stage) -> bool
    ensures { result ≡ released s }
{
    matches!(s, Stage::Release { .. })
}

// The stage with m frames more spent.
pub fn age_by(s: Stage, m: u32) -> Stage
    requires { RoomBy m s }
    ensures { result ≡ spent_by m s }
{
    match s {
        Stage::Delay { left } => Stage::Delay {
            left: left.saturating_sub(m),
        },
        Stage::Attack { t } => Stage::Attack { t: t + m },
        Stage::Hold { t } => Stage::Hold { t: t + m },
        Stage::Decay { t } => Stage::Decay { t: t + m },
        Stage::Sustain => Stage::Sustain,
        Stage::Release { from, t } => Stage::Release { from, t: t + m },
    }
}
