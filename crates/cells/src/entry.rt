// A body of len octets from start on, at a position of a list of entries; the next entry begins behind it.
#[derive(Clone, Copy, PartialEq, Eq)]
pub struct Body {
    pub start: usize,
    pub len: usize,
}
