/// What a seat knows of one word: how many of its permits it holds, what its last load read, and
/// how many steps of each kind it made. No value of it is made.
pub struct WordView {
    /// The permits that it holds.
    pub held: u64,
    /// What its last load read, 0 before any.
    pub seen: u64,
    /// Its loads of the word.
    pub loads: u64,
    /// Its exchanges to one more.
    pub exchanges: u64,
    /// Those of its exchanges that found another value than `seen`.
    pub misses: u64,
    /// Its subtractions of one.
    pub subtractions: u64,
    /// Its loads after a join, which compare the word with what it holds.
    pub compares: u64,
}

/// What a seat of a word budget knows. No value of it is made.
pub struct SeatView {
    /// Its share of a whole of 65,536.
    pub share: u64,
    /// Of the word that counts open connections.
    pub total: WordView,
    /// Of the word that counts kept connections.
    pub kept: WordView,
}
