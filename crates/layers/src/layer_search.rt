// The layers of a key: the preset, and the search over zones within zones (01, "From a key to layers").
ghost use Rattle.std.specs.Prelude.{◌≡◌};
ghost use Rattle.layers.specs.Internal.Barren.{entered};
ghost use Rattle.layers.specs.LayerSearch.{picked, preset_for, is_preset};
ghost use Rattle.layers.specs.Internal.LayerSearch.{searched};

use crate::barren::{is_barren, note_barren};
use crate::ranges::matches;
use crate::{Layers, Pair};
use records::{Parts, Side, Zone};

// Whether a zone, with the global one of its head, is sounding and matches.
#[tactic(auto, unfolding(crate::specs::LayerSearch::picked))]
fn picked(b: &[u8], s: Side, zone: Zone, global: Zone, key: u8, velocity: u8) -> bool
    ensures { result ≡ picked b.now s zone global key velocity }
{
    zone.sounding && matches(b, s, zone, global, key, velocity)
}

// Whether the search goes into the instrument of a preset zone: the zone is picked, and its instrument is not remembered as barren.
#[tactic(auto, unfolding(crate::specs::Internal::Barren::entered))]
fn enters(
    b: &[u8],
    p: Side,
    zone: Zone,
    global: Zone,
    key: u8,
    velocity: u8,
    barren: &[bool],
) -> bool
    ensures { result ≡ entered b.now p zone global key velocity barren.now }
{
    picked(b, p, zone, global, key, velocity) && !is_barren(barren, zone.link)
}

// The layers of preset h: the search stops at the thirty-third. An instrument in which nothing matches is gone through once only; a bank has fewer than 3,072.
pub fn search(b: &[u8], m: Parts, key: u8, velocity: u8, h: u32) -> Layers
    ensures { result ≡ searched b.now m key velocity h }
{
    let p = m.presets;
    let i = m.instruments;
    let mut pairs = [Pair { outer: 0, inner: 0 }; 33];
    let mut barren = [false; 3072];
    let mut found: usize = 0;
    let from = u32::from(records::bag_of(b, p, h as usize));
    let count = u32::from(records::zone_count(b, p, h));
    let above = records::global_of(b, p, h);
    'search: for n in 0..count {
        let z = from + n;
        let zone = records::zone_at(b, p, z);
        if enters(b, p, zone, above, key, velocity, &barren) {
            let before = found;
            let k = u32::from(zone.link);
            let low = u32::from(records::bag_of(b, i, k as usize));
            let many = u32::from(records::zone_count(b, i, k));
            let beside = records::global_of(b, i, k);
            for j in 0..many {
                let y = low + j;
                let inner = records::zone_at(b, i, y);
                if picked(b, i, inner, beside, key, velocity) {
                    pairs[found] = Pair { outer: z, inner: y };
                    found += 1;
                    if found == 33 {
                        break 'search;
                    }
                }
            }
            note_barren(&mut barren, zone.link, found == before);
        }
    }
    Layers {
        count: found as u32,
        pairs,
    }
}

// Whether phdr record h has this bank and program.
#[tactic(auto, unfolding(crate::specs::LayerSearch::is_preset))]
fn is_preset(b: &[u8], m: Parts, bank: u16, program: u8, h: u32) -> bool
    ensures { result ≡ is_preset b.now m bank program h }
{
    records::bank_of(b, m, h) == bank && records::program_of(b, m, h) == u16::from(program)
}

// The first phdr record with bank and program; the terminal is not one.
pub fn preset_for(b: &[u8], m: Parts, bank: u16, program: u8) -> Option<usize>
    ensures { result ≡ preset_for b.now m bank program }
{
    let count = m.presets.nheads;
    for h in 0..count.saturating_sub(1) {
        if is_preset(b, m, bank, program, h) {
            return Some(h as usize);
        }
    }
    None
}
