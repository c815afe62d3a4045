// What reading a message answers.

/// What reading a message gave: its bytes, as many as this, or only how many they are, where there
/// was no room for them; or no message can be read.
#[derive(Clone, Copy, Debug, PartialEq, Eq)]
pub enum Got {
    Whole(usize),
    TooLarge(usize),
    Nothing,
}
