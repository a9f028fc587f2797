// The envelope of a voice (01, "From a key to layers" and "A voice, frame by frame").
ghost use Rattle.std.specs.Prelude.{◌≡◌};
ghost use Rattle.totals.specs.Internal.Values.{total_in};
ghost use Rattle.layers.specs.Envelope.{envelope_of};

use curves::OctaveTable;
use totals::LayerValues;

// The frames of each stage, and the sustain's attenuation in cB.
#[derive(Clone, Copy)]
pub struct Envelope {
    pub delay: u32,
    pub attack: u32,
    pub hold: u32,
    pub decay: u32,
    pub sustain: u16,
    pub release: u32,
}

// The envelope by a layer's values, struck with key.
pub fn envelope_of(values: &LayerValues, key: u8, t: &OctaveTable) -> Envelope
    ensures { result ≡ envelope_of (total_in values.now.own values.now.added) key }
{
    Envelope {
        delay: t.short_frames(values.time_of(33)),
        attack: t.long_frames(values.time_of(34)),
        hold: t.short_frames(values.keyed_time(key, 35, 39)),
        decay: t.long_frames(values.keyed_time(key, 36, 40)),
        sustain: values.sustain_of(),
        release: t.long_frames(values.time_of(38)),
    }
}
