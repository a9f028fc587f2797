// From a twin to what it stands for, and back.
ghost use Rattle.std.specs.Prelude.{◌≡◌};
ghost use Rattle.cabinet.specs.Twins.{flat_stage, stage_of, stage_to, voice_of_twin, voice_to, engine_of, engine_to, player_of, player_to};

use crate::{FlatEngine, FlatPlayer, FlatStage, FlatVoice};
use player::Player;
use smf::Event;
use state::Engine;
use voice::{Stage, Voice};

// What stands in the event's place where none comes.
const NO_EVENT: Event = Event {
    frame: 0,
    status: 0,
    first: 0,
    second: 0,
};

// A stage by its number.
impl From<FlatStage> for Stage {
    ghost from_gives = { λ s r. r ≡ stage_of s };

    fn from(s: FlatStage) -> Stage {
        match s.kind {
            0 => Stage::Delay { left: s.t },
            1 => Stage::Attack { t: s.t },
            2 => Stage::Hold { t: s.t },
            3 => Stage::Decay { t: s.t },
            4 => Stage::Sustain,
            _ => Stage::Release {
                from: s.from,
                t: s.t,
            },
        }
    }
}

// The three numbers of a stage.
fn flat_stage(kind: u8, from: u16, t: u32) -> FlatStage
    ensures { result ≡ flat_stage kind from t }
{
    FlatStage { kind, from, t }
}

// A stage as numbers.
impl From<Stage> for FlatStage {
    ghost from_gives = { λ s r. r ≡ stage_to s };

    fn from(s: Stage) -> FlatStage {
        match s {
            Stage::Delay { left } => flat_stage(0, 0, left),
            Stage::Attack { t } => flat_stage(1, 0, t),
            Stage::Hold { t } => flat_stage(2, 0, t),
            Stage::Decay { t } => flat_stage(3, 0, t),
            Stage::Sustain => flat_stage(4, 0, 0),
            Stage::Release { from, t } => flat_stage(5, from, t),
        }
    }
}

// A voice from its twin.
impl From<FlatVoice> for Voice {
    ghost from_gives = { λ f r. r ≡ voice_of_twin f };

    fn from(f: FlatVoice) -> Voice {
        Voice {
            stage: Stage::from(f.stage),
            place: f.place,
            channel: f.channel,
            key: f.key,
            velocity: f.velocity,
            marked: f.marked != 0,
            class: f.class,
            rom: f.rom != 0,
            start: f.start,
            end: f.end,
            mode: f.mode,
            loopfrom: f.loopfrom,
            loopto: f.loopto,
            rate: f.rate,
            pitch: f.pitch,
            pan: f.pan,
            attenuation: f.attenuation,
            attack: f.attack,
            hold: f.hold,
            decay: f.decay,
            sustain: f.sustain,
            release: f.release,
        }
    }
}

// A voice's twin.
impl From<Voice> for FlatVoice {
    ghost from_gives = { λ v r. r ≡ voice_to v };

    fn from(v: Voice) -> FlatVoice {
        FlatVoice {
            stage: FlatStage::from(v.stage),
            place: v.place,
            channel: v.channel,
            key: v.key,
            velocity: v.velocity,
            marked: u8::from(v.marked),
            class: v.class,
            rom: u8::from(v.rom),
            start: v.start,
            end: v.end,
            mode: v.mode,
            loopfrom: v.loopfrom,
            loopto: v.loopto,
            rate: v.rate,
            pitch: v.pitch,
            pan: v.pan,
            attenuation: v.attenuation,
            attack: v.attack,
            hold: v.hold,
            decay: v.decay,
            sustain: v.sustain,
            release: v.release,
        }
    }
}

// An engine from its twin. A loop, since `map` over the array costs each call of C 27,000 instructions more.
impl From<FlatEngine> for Engine {
    ghost from_gives = { λ f r. r ≡ engine_of f };

    fn from(f: FlatEngine) -> Engine {
        let mut voices = [voice::no_voice(); 32];
        for i in 0..32 {
            voices[i] = Voice::from(f.voices[i]);
        }
        let channels = f.channels;
        let order = f.order;
        Engine {
            voices,
            channels,
            sounding: f.sounding,
            order,
            clock: f.clock,
        }
    }
}

// An engine's twin, by a loop too.
impl From<Engine> for FlatEngine {
    ghost from_gives = { λ e r. r ≡ engine_to e };

    fn from(e: Engine) -> FlatEngine {
        let mut voices = [FlatVoice::from(voice::no_voice()); 32];
        for i in 0..32 {
            voices[i] = FlatVoice::from(e.voices[i]);
        }
        let channels = e.channels;
        let order = e.order;
        FlatEngine {
            voices,
            channels,
            sounding: e.sounding,
            order,
            clock: e.clock,
        }
    }
}

// A player from its twin.
impl From<FlatPlayer> for Player {
    ghost from_gives = { λ f r. r ≡ player_of f };

    #[tactic(auto, unfolding(crate::specs::Twins::player_of))]
    fn from(f: FlatPlayer) -> Player {
        Player {
            engine: Engine::from(f.engine),
            cursor: f.cursor,
            event: if f.ended == 0 { Some(f.event) } else { None },
            began: f.began,
        }
    }
}

// A player's twin.
impl From<Player> for FlatPlayer {
    ghost from_gives = { λ p r. r ≡ player_to p };

    #[tactic(auto, unfolding(crate::specs::Twins::player_to))]
    fn from(p: Player) -> FlatPlayer {
        FlatPlayer {
            engine: FlatEngine::from(p.engine),
            cursor: p.cursor,
            event: p.event.unwrap_or(NO_EVENT),
            began: p.began,
            ended: u8::from(p.event.is_none()),
        }
    }
}
