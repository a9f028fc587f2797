// What an event of a song does: the direct call that it names.
ghost use Rattle.std.specs.Prelude.{◌≡◌};
ghost use Rattle.state.specs.Answers.{told_call};
ghost use Rattle.player.specs.Acting.{kind_of, channel_in, bend_in, heeded};

use engine::{Engine, Refusal};
use smf::Event;

// The kind of an event: the high four bits of its status.
fn kind_of(v: Event) -> u8
    ensures { result ≡ kind_of v }
{
    v.status / 16
}

// Its channel: the low four.
fn channel_in(v: Event) -> u8
    ensures { result ≡ channel_in v }
{
    v.status % 16
}

// Its two data bytes as a bend, the low seven bits first.
fn bend_in(v: Event) -> u16
    ensures { result ≡ bend_in v }
{
    u16::from(v.first) + 128 * u16::from(v.second)
}

// The call of an event, made on an engine. Key and channel pressure have none.
pub fn heed<'a>(
    e: &mut Engine,
    bank: &[u8],
    ram: &'a [i16],
    rom: &'a [i16],
    v: Event,
) -> Result<u32, Refusal>
    ensures { told_call result e.new ≡ heeded bank.now ram.now rom.now v e.old }
{
    let channel = channel_in(v);
    match kind_of(v) {
        8 => engine::note_off(e, channel, v.first),
        9 => engine::note_on(e, bank, ram, rom, channel, v.first, v.second),
        11 => engine::control_change(e, channel, v.first, v.second),
        12 => engine::program_change(e, channel, v.first),
        14 => engine::pitch_bend(e, channel, bend_in(v)),
        _ => Ok(0),
    }
}
