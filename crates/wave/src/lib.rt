// WAVE files of a render (02, M-107): a writer, its two halves for a host that streams, and a reader, over lent memory;
// and sums of voices poured at a lower level. Any numbers, any bytes.

#![tactic(auto)]

mod answers;
mod headings;
mod lowering;
mod pcm;
mod playback;
mod pours;
mod recording;

pub use answers::{Poured, Refusal};
pub use headings::heading;
pub use lowering::{attenuation_for, pour_sums};
pub use playback::read;
pub use pours::pour;
pub use recording::write;
