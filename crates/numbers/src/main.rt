// Writes what crate curves gives for fixed lists of arguments, a line each, to be compared with what the second program computes.

#![tactic(auto)]

mod arguments;
mod columns;
mod rows;

// All lists, one after the other.
fn main() {
    let mut text = cases::Text::begin();
    let octaves = curves::OctaveTable::new();
    let gains = curves::GainTable::new();
    columns::steps(&mut text, &octaves);
    columns::times(&mut text, &octaves);
    columns::gains(&mut text, &gains);
    columns::attenuations(&mut text, b"velocity ", 1);
    columns::attenuations(&mut text, b"control ", 0);
    columns::levels(&mut text, &gains);
    columns::bends(&mut text);
    text.flush();
}
