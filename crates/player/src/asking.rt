// What a host asks: whether the song is over, whether no voice sounds, and how many voices are held.
ghost use Rattle.std.specs.Prelude.{◌≡◌, if◌then◌else◌};
ghost use Rattle.arith.specs.Lists.{count_if};
ghost use Rattle.state.specs.Slots.{slots_of};
ghost use Rattle.player.specs.Asking.{is_held, is_silent, held_count};
ghost use Rattle.player.specs.Cues.{song_over};

use crate::Player;
use engine::Engine;
use state::slot_of;
use voice::Slot;

// No event of the song is left: the last one was applied, or it was stopped, or none was started.
pub fn is_over(p: Player) -> bool
    ensures { result ≡ song_over p }
{
    p.event.is_none()
}

// No voice sounds.
pub fn is_silent(p: Player) -> bool
    ensures { result ≡ is_silent p }
{
    p.engine.sounding == 0
}

// 1 for a voice that is held: it sounds, and is neither released nor marked.
fn one_if_held(s: Slot) -> u32
    ensures { result ≡ (if is_held s then 1 else 0) }
{
    u32::from(events::is_held(s, s.voice.channel))
}

// How many voices of an engine are held, on all channels.
fn held_in(e: Engine) -> u32
    ensures { result ≡ count_if is_held (slots_of e) }
{
    let mut count: u32 = 0;
    for i in 0..32 {
        count += one_if_held(slot_of(e, i));
    }
    count
}

// How many voices are held. A piece that leaves a key held says so by this count, once it is over.
pub fn held_count(p: Player) -> u32
    ensures { result ≡ held_count p }
{
    held_in(p.engine)
}
