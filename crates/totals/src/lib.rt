// A layer's values, their totals, and the numbers that a starting voice gets of them (01, "From a key to layers").

#![tactic(auto)]

mod settings;
mod values;

use records::Zone;

// A layer's four zones: the preset's and the instrument's, each with the global one of its head.
#[derive(Clone, Copy)]
pub struct Layer {
    pub preset: Zone,
    pub above: Zone,
    pub instrument: Zone,
    pub beside: Zone,
}

// A layer's values, each zone read once: the instrument's own, and those that the preset adds. A generator's number is its place.
#[derive(Clone, Copy)]
pub struct LayerValues {
    pub own: [i16; 61],
    pub added: [i16; 61],
}
