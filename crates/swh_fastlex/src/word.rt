// What a text is, read as a word that has a limit.

/// What a text is, read as a word of one kind.
#[derive(Drop)]
pub enum Word<T: Drop> {
    Is(T),
    /// The word is longer than it may be. This many bytes of the text could belong to it.
    Over(u64),
    No,
}
