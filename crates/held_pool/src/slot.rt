/// The slot of a value: its place in the table, and for how many values the place was filled.
#[derive(Clone, Copy, Debug, PartialEq, Eq)]
pub struct Slot {
    pub index: u32,
    pub generation: u32,
}
