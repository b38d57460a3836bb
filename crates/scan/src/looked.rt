ghost use Rattle.std.specs.Prelude.{◌≡◌, option_map};

// Where a version stands: in a slot of the hot table, or in the cold store under a tag.
#[derive(Clone, Copy, Debug, PartialEq, Eq)]
pub enum Place {
    Hot(usize),
    Cold(u32),
}

// A version that a session sees.
#[derive(Clone, Copy, Debug, PartialEq, Eq)]
pub struct Seen<R> {
    pub row: R,
    pub place: Place,
}

// What a lookup answers: the version, if there is one, and how many finds it took.
#[derive(Clone, Copy, Debug, PartialEq, Eq)]
pub struct Looked<R> {
    pub seen: Option<Seen<R>>,
    pub finds: u32,
}

impl<R: Copy> Looked<R> {
    // The row of what was seen.
    pub fn row(&self) -> Option<R>
        ensures { result ≡ option_map (λ v. v.row) self.now.seen }
    {
        self.seen.map(|version| version.row)
    }
}
