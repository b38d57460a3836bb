// An element of a table, and its place.
#[derive(Clone, Copy, Debug, PartialEq, Eq)]
pub struct Hit<T> {
    pub at: usize,
    pub it: T,
}
