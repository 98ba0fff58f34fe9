//! Marks of leap seconds.

ghost use Rattle.std.specs.Prelude.{◌≡◌};
ghost use Rattle.irig_time.specs.MarkWords.{mark_word};

/// What is said of the leap at a month's end, by a frame or a table.
#[derive(Clone, Copy, PartialEq, Eq)]
pub enum Mark {
    /// Nothing is said.
    Unspoken,
    /// No leap comes.
    NoLeap,
    /// A second is inserted.
    Insert,
    /// A second is deleted.
    Delete,
}

impl Mark {
    /// The word for it, as docs/OUTPUT.md has it.
    pub fn word(self) -> &'static str
        ensures { result.now ≡ mark_word self }
    {
        match self {
            Mark::Unspoken => "unspoken",
            Mark::NoLeap => "no-leap",
            Mark::Insert => "insert",
            Mark::Delete => "delete",
        }
    }
}
