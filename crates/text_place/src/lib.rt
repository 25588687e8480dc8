// Where something stands in a text: a byte, counted from 0. Whoever passes a place on takes it as it is.
#![tactic(auto)]

#[derive(Clone, Copy)]
pub struct TextPlace {
    pub byte: usize,
}
