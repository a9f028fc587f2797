// What a note-on of a channel looks for in a bank: the bank number and the program of a preset.
ghost use Rattle.std.specs.Prelude.{◌≡◌};
ghost use Rattle.engine.specs.Presets.{sought_program, sought_bank};

use state::{Engine, channel_of};

// The program of a channel; past channel 15 there is none, 65,535.
pub fn channel_program(e: Engine, channel: u8) -> u32
    ensures { result ≡ sought_program channel e }
{
    if 15 < channel {
        return 65535;
    }
    let c = channel_of(e, channel);
    c.program as u32
}

// Its bank number: the one that its last program change took, but 128 on channel 9; past channel 15 none, 65,535.
pub fn channel_bank(e: Engine, channel: u8) -> u32
    ensures { result ≡ sought_bank channel e }
{
    if 15 < channel {
        return 65535;
    }
    if channel == 9 {
        return 128;
    }
    let c = channel_of(e, channel);
    c.bank as u32
}
