// What a voice sounds like beside its sample and its envelope (01, "From a key to layers").
ghost use Rattle.std.specs.Prelude.{◌≡◌};
ghost use Rattle.totals.specs.Internal.Values.{total_in};
ghost use Rattle.layers.specs.Tuning.{tuning_of};

use records::Parts;
use totals::LayerValues;

// The exclusive class, the pitch total without the bend, the pan, and what stays of the attenuation.
#[derive(Clone, Copy)]
pub struct Tuning {
    pub class: u16,
    pub pitch: i32,
    pub pan: i16,
    pub attenuation: i32,
}

// The tuning of sample k by a layer's values, struck with key and velocity.
pub fn tuning_of(b: &[u8], m: Parts, k: u32, values: &LayerValues, key: u8, velocity: u8) -> Tuning
    ensures { result ≡ tuning_of b.now m k (total_in values.now.own values.now.added) key velocity }
{
    let root = records::root_byte(b, m, k);
    let correction = records::correction_of(b, m, k);
    Tuning {
        class: values.class_of(),
        pitch: values.pitch_of(key, root, correction),
        pan: values.pan_of(),
        attenuation: values.attenuation_of(velocity),
    }
}
