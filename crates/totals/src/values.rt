// A layer's values, each zone read once, and their totals (01, "From a key to layers").
ghost use Rattle.std.specs.Prelude.{◌≡◌, ◌<◌, ◌+ℤ◌};
ghost use Rattle.arith.specs.Holds.{held_to};
ghost use Rattle.arith.specs.Within.{Within};
ghost use Rattle.totals.specs.Internal.Values.{defaults, own_values, added_values};
ghost use Rattle.records.specs.Internal.Amounts.{at};

use crate::{Layer, LayerValues};
use arith::hold;
use records::Parts;

// What a generator has where no zone says anything.
fn defaults() -> [i16; 61]
    ensures { result ≡ defaults }
{
    let mut d = [0i16; 61];
    d[33] = -12000;
    d[34] = -12000;
    d[35] = -12000;
    d[36] = -12000;
    d[38] = -12000;
    d[46] = -1;
    d[56] = 100;
    d[58] = -1;
    d
}

// The instrument's values: local, else global, else default.
fn own_values(b: &[u8], m: Parts, l: Layer) -> [i16; 61]
    ensures { result ≡ own_values b.now m l }
{
    let i = m.instruments;
    let global = records::poured(b, i, l.beside, defaults());
    records::poured(b, i, l.instrument, global)
}

// The preset's values: local, else global, else 0.
fn added_values(b: &[u8], m: Parts, l: Layer) -> [i16; 61]
    ensures { result ≡ added_values b.now m l }
{
    let p = m.presets;
    let global = records::poured(b, p, l.above, [0i16; 61]);
    records::poured(b, p, l.preset, global)
}

impl LayerValues {
    // A layer's values.
    pub fn of(b: &[u8], m: Parts, l: Layer) -> LayerValues
        ensures own { result.own ≡ own_values b.now m l }
        ensures added { result.added ≡ added_values b.now m l }
    {
        LayerValues {
            own: own_values(b, m, l),
            added: added_values(b, m, l),
        }
    }

    // A generator's two values added.
    pub(crate) fn sum_at(&self, g: usize) -> i64
        requires { g < 61 }
        ensures { (result ≡ at self.now.own g +ℤ at self.now.added g) × Within result 65536 }
    {
        i64::from(self.own[g]) + i64::from(self.added[g])
    }

    // The same, held to low..high.
    pub(crate) fn held_at(&self, g: usize, low: i64, high: i64) -> i64
        requires { (g < 61) × Within low 1200 × Within high 1200 }
        ensures { (result ≡ held_to low high (at self.now.own g +ℤ at self.now.added g)) × Within result 1200 }
    {
        hold(low, high, self.sum_at(g))
    }
}
