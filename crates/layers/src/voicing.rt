// The voices that a key starts (01, "From a key to layers").
ghost use Rattle.std.specs.Prelude.{◌≡◌};
ghost use Rattle.layers.specs.LayerSearch.{layer_of};
ghost use Rattle.layers.specs.Voicing.{voice_by, voices_of};
ghost use Rattle.layers.specs.Internal.Voicing.{struck_of};

use crate::envelope::envelope_of;
use crate::extent::extent_of;
use crate::layer_search::search;
use crate::tuning::tuning_of;
use crate::{Pair, Struck};
use curves::OctaveTable;
use records::Parts;
use totals::{Layer, LayerValues};
use voice::{Stage, Voice};

// The four zones of a layer of preset h.
fn layer_of(b: &[u8], m: Parts, h: u32, p: Pair) -> Layer
    ensures { result ≡ layer_of b.now m h p }
{
    let zone = records::zone_at(b, m.presets, p.outer);
    Layer {
        preset: zone,
        above: records::global_of(b, m.presets, h),
        instrument: records::zone_at(b, m.instruments, p.inner),
        beside: records::global_of(b, m.instruments, zone.link as u32),
    }
}

// The voice that a layer starts: its extent, its tuning and its envelope.
fn voice_by(
    b: &[u8],
    m: Parts,
    l: Layer,
    channel: u8,
    key: u8,
    velocity: u8,
    t: &OctaveTable,
) -> Voice
    ensures { result ≡ voice_by b.now m l channel key velocity }
{
    let values = LayerValues::of(b, m, l);
    let k = u32::from(l.instrument.link);
    let extent = extent_of(b, m, k, &values.own);
    let tuning = tuning_of(b, m, k, &values, key, velocity);
    let envelope = envelope_of(&values, key, t);
    Voice {
        stage: Stage::Delay {
            left: envelope.delay,
        },
        place: 0,
        channel,
        key,
        velocity,
        marked: false,
        class: tuning.class,
        rom: extent.rom,
        start: extent.start,
        end: extent.end,
        mode: extent.mode,
        loopfrom: extent.loopfrom,
        loopto: extent.loopto,
        rate: extent.rate,
        pitch: tuning.pitch,
        pan: tuning.pan,
        attenuation: tuning.attenuation,
        attack: envelope.attack,
        hold: envelope.hold,
        decay: envelope.decay,
        sustain: envelope.sustain,
        release: envelope.release,
    }
}

// The voices that preset h starts for channel, key and velocity, in order.
pub fn voices_for(b: &[u8], m: Parts, h: u32, channel: u8, key: u8, velocity: u8) -> Struck
    ensures { result ≡ struck_of (voices_of b.now m h channel key velocity) }
{
    let found = search(b, m, key, velocity, h);
    let none = voice::no_voice();
    let mut voices = [none; 32];
    let count = found.count;
    if 32 < count {
        return Struck { count, voices };
    }
    let t = OctaveTable::new();
    let n = count as usize;
    for i in 0..n {
        let p = found.pairs[i];
        let l = layer_of(b, m, h, p);
        let v = voice_by(b, m, l, channel, key, velocity, &t);
        voices[i] = v;
    }
    Struck { count, voices }
}
