// What is told of a preset: its name's place, its zones, and the lowest and highest key of its layers.
ghost use Rattle.std.specs.Prelude.{◌≡◌};
ghost use Rattle.layers.specs.Spans.{area_of, layer_keys, keys_under, span_under, zone_span, span_of, sheet_of, told_sheet};
ghost use Rattle.records.specs.Zones.{zone_count};

use crate::ranges::{key_range, velocity_range};
use crate::{Area, NoSheet, Range, Sheet};
use records::{Parts, Side, Zone};

// The keys and velocities that match a zone, with the global one of its head: those of a note-on.
fn area(b: &[u8], s: Side, local: Zone, global: Zone) -> Area
    ensures { result ≡ area_of b.now s local global }
{
    let keys = key_range(b, s, local, key_range(b, s, global, Range::WHOLE));
    let velocities = velocity_range(b, s, local, velocity_range(b, s, global, Range::WHOLE));
    Area {
        keys: Range::WHOLE.common(keys),
        velocities: Range::STRUCK.common(velocities),
    }
}

// The keys of a layer of two zones; none where no key or no velocity is in both.
#[tactic(auto, unfolding(crate::specs::Spans::layer_keys))]
fn layer_keys(a: Area, c: Area) -> Range
    ensures { result ≡ layer_keys a c }
{
    let keys = a.keys.common(c.keys);
    if keys.filled() && a.velocities.common(c.velocities).filled() {
        return keys;
    }
    Range::NO_KEYS
}

// The keys of a preset zone's area with an instrument zone and the global one beside it.
fn keys_under(b: &[u8], i: Side, a: Area, zone: Zone, beside: Zone) -> Range
    ensures { result ≡ keys_under b.now i a zone beside }
{
    if zone.sounding {
        return layer_keys(a, area(b, i, zone, beside));
    }
    Range::NO_KEYS
}

// From the lowest to the highest key of a preset zone's area with instrument k.
fn span_under(b: &[u8], i: Side, a: Area, k: u32) -> Range
    ensures { result ≡ span_under b.now i a k (zone_count b.now i k) }
{
    let from = u32::from(records::bag_of(b, i, k as usize));
    let count = u32::from(records::zone_count(b, i, k));
    let beside = records::global_of(b, i, k);
    let mut span = Range::NO_KEYS;
    for n in 0..count {
        let zone = records::zone_at(b, i, from + n);
        span = span.joined(keys_under(b, i, a, zone, beside));
    }
    span
}

// The same of a zone of a preset, with the global one above it and the instrument that it names.
fn zone_span(b: &[u8], p: Side, i: Side, zone: Zone, above: Zone) -> Range
    ensures { result ≡ zone_span b.now p i zone above }
{
    if zone.sounding {
        return span_under(b, i, area(b, p, zone, above), zone.link as u32);
    }
    Range::NO_KEYS
}

// From the lowest to the highest key of the layers of preset h; 127..0 where it has none.
fn span_of(b: &[u8], m: Parts, h: u32) -> Range
    ensures { result ≡ span_of b.now m h }
{
    let p = m.presets;
    let i = m.instruments;
    let from = u32::from(records::bag_of(b, p, h as usize));
    let count = u32::from(records::zone_count(b, p, h));
    let above = records::global_of(b, p, h);
    let mut span = Range::NO_KEYS;
    for n in 0..count {
        let zone = records::zone_at(b, p, from + n);
        span = span.joined(zone_span(b, p, i, zone, above));
    }
    span
}

// The sheet of the phdr record at a place, where the bank is admitted and the record is not the terminal.
pub fn preset_sheet(bank: &[u8], place: u32) -> Result<Sheet, NoSheet>
    ensures { told_sheet result ≡ sheet_of bank.now place }
{
    if !bank::admitted(bank) {
        return Err(NoSheet::NotAdmitted);
    }
    let m = records::parts_of(bank);
    let p = m.presets;
    if p.nheads.saturating_sub(1) <= place {
        return Err(NoSheet::AtEnd);
    }
    let keys = span_of(bank, m, place);
    Ok(Sheet {
        name: ((p.heads as usize) + records::times(p.width, place as usize)) as u32,
        zones: u32::from(records::zone_count(bank, p, place)),
        low: keys.low,
        high: keys.high,
    })
}
