// What comes of a text.
// What a text holds that was sealed, and how many bytes it has when it is written back.
#[derive(Clone, Copy)]
pub struct Account {
    pub events: usize,
    pub ties: u32,
    pub bytes: usize,
}
