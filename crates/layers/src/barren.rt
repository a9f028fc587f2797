// Instruments in which nothing matches, remembered for one note-on: the search goes into none of them twice.
ghost use Rattle.std.specs.Prelude.{◌≡◌};
ghost use Rattle.layers.specs.Internal.Barren.{remembered, noted};

// Whether instrument k is remembered; a number past the array never is.
#[tactic(auto, unfolding(crate::specs::Internal::Barren::remembered))]
pub fn is_barren(barren: &[bool], k: u16) -> bool
    ensures { result ≡ remembered barren.now k }
{
    barren.get(usize::from(k)).copied().unwrap_or(false)
}

// Remembers instrument k where nothing was found in it.
#[tactic(auto, unfolding(crate::specs::Internal::Barren::noted))]
pub fn note_barren(barren: &mut [bool], k: u16, nothing: bool)
    ensures { barren.new ≡ noted barren.old k nothing }
{
    let at = usize::from(k);
    if nothing && at < barren.len() {
        barren[at] = true;
    }
}
