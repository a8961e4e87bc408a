ghost use Rattle.std.specs.Prelude.{◌≡◌, ℕ, ◌+◌, ◌<◌};

/// What a budget answers where it is asked for one permit more.
#[derive(Clone, Copy, Debug, PartialEq, Eq)]
pub enum Try {
    /// The permit is given.
    Got,
    /// The limit is reached. Nothing changed.
    Full,
    /// Another thread changed the number meanwhile. Nothing changed, and asking again may help.
    Contended,
}

/// How many permits a part of a budget holds.
#[derive(Clone, Copy, Debug, PartialEq, Eq)]
pub struct Held {
    /// Those for open connections.
    pub alive: u32,
    /// Those for connections that are kept open after their use.
    pub kept: u32,
}

/// One host's part of a budget: what asks for permits, and gives them back.
///
/// Ghost members say what contracts may know of it. `opening` and `keeping` relate an earlier time,
/// a later one and an answer. `Full`: in between the budget was asked and answered so, and this
/// part has left the number since. `Contended`: it was asked and answered so at least once. `Got`
/// tells nothing. What each tells of the number is the budget's to say.
///
/// `K` is the key of who may ask: each call that asks takes one, and only who can make keys has
/// one. To give a permit back takes none.
pub trait Permits<K> {
    ghost use Rattle.budget.specs.declared.permits.Held.{Held};
    ghost use Rattle.budget.specs.declared.permits.Try.{Try};
    ghost use Rattle.budget.specs.declared.permits.Try.TheVariants.{Got, Contended};
    ghost use Rattle.budget.specs.Permits.{one_more_open, one_more_kept, if_got};
    ghost use Rattle.budget.specs.Permits.{one_less_open, one_less_kept};

    /// It is a part of its budget.
    ghost stands: { Self → Type 0 };

    /// What it holds.
    ghost held: { Self → Held };

    /// It is the same part of the same budget, at a later time.
    ghost stays: { Self → Self → Type 0 };

    /// Between the two times the budget was asked for an open connection and answered so, in the
    /// sense above.
    ghost opening: { Self → Self → Try → Type 0 };

    /// Between the two times the budget was asked to keep a connection and answered so.
    ghost keeping: { Self → Self → Try → Type 0 };

    /// From the one time to the other the budget was asked once for an open connection, answered
    /// so, and nothing else happened.
    ghost asks_open: { Self → Self → Try → Type 0 };

    /// The same for a kept connection.
    ghost asks_kept: { Self → Self → Try → Type 0 };

    /// From the one time to the other the budget was asked this often for an open connection, and
    /// this often to keep one. To give a permit back asks for nothing.
    ghost asked: { Self → Self → ℕ → ℕ → Type 0 };

    /// No step between the two times touched the number of open connections.
    ghost same_total: { Self → Self → Type 0 };

    /// No step between the two times touched the number of kept connections.
    ghost same_kept: { Self → Self → Type 0 };

    /// Asks for one more open connection.
    fn reserve_open(&mut self, key: &K) -> Try
        requires stands { stands self.old }
        ensures stands { stands self.new }
        ensures stays { stays self.old self.new }
        ensures asks { asks_open self.old self.new result }
        ensures asked { asked self.old self.new 1 0 }
        ensures told { opening self.old self.new result }
        ensures held { held self.new ≡ if_got result one_more_open (held self.old) }
        ensures same_kept { same_kept self.old self.new };

    /// Asks for one more connection kept open after its use.
    fn reserve_kept(&mut self, key: &K) -> Try
        requires stands { stands self.old }
        ensures stands { stands self.new }
        ensures stays { stays self.old self.new }
        ensures asks { asks_kept self.old self.new result }
        ensures asked { asked self.old self.new 0 1 }
        ensures told { keeping self.old self.new result }
        ensures held { held self.new ≡ if_got result one_more_kept (held self.old) }
        ensures same_total { same_total self.old self.new };

    /// Gives one open connection's permit back.
    fn release_open(&mut self)
        requires stands { stands self.old }
        requires one { 0 < (held self.old).alive }
        ensures stands { stands self.new }
        ensures stays { stays self.old self.new }
        ensures asked { asked self.old self.new 0 0 }
        ensures held { held self.new ≡ one_less_open (held self.old) }
        ensures same_kept { same_kept self.old self.new };

    /// Gives one kept connection's permit back.
    fn release_kept(&mut self)
        requires stands { stands self.old }
        requires one { 0 < (held self.old).kept }
        ensures stands { stands self.new }
        ensures stays { stays self.old self.new }
        ensures asked { asked self.old self.new 0 0 }
        ensures held { held self.new ≡ one_less_kept (held self.old) }
        ensures same_total { same_total self.old self.new };

    /// What it holds.
    fn held(&self) -> Held
        requires { stands self.now }
        ensures { result ≡ held self.now };

    ghost stays_from_start: { (x : Self) → stays x x };

    ghost stays_on: { (x y z : Self) → stays x y → stays y z → stays x z };

    ghost asked_from_start: { (x : Self) → asked x x 0 0 };

    ghost asked_on: { (x y z : Self) (opens keeps more_opens more_keeps : ℕ)
        → asked x y opens keeps → asked y z more_opens more_keeps
        → asked x z (opens + more_opens) (keeps + more_keeps) };

    /// Not asked reads as Got.
    ghost not_asked_to_open: { (x y : Self) → stays x y → opening x y Got };

    ghost not_asked_to_keep: { (x y : Self) → stays x y → keeping x y Got };

    /// An answer that was told since a later time was told since an earlier one.
    ghost opening_since: { (x y z : Self) (answer : Try)
        → stays x y → opening y z answer → opening x z answer };

    ghost keeping_since: { (x y z : Self) (answer : Try)
        → stays x y → keeping y z answer → keeping x z answer };

    /// It is still the answer after steps that leave the number that was asked for.
    ghost opening_still: { (x y z : Self) (answer : Try)
        → opening x y answer → stays y z → same_total y z → opening x z answer };

    ghost keeping_still: { (x y z : Self) (answer : Try)
        → keeping x y answer → stays y z → same_kept y z → keeping x z answer };

    /// That it has to be asked again is still the answer whatever was given back since.
    ghost contended_to_open: { (x y z : Self)
        → opening x y Contended → stays y z → opening x z Contended };

    ghost contended_to_keep: { (x y z : Self)
        → keeping x y Contended → stays y z → keeping x z Contended };

    ghost same_total_on: { (x y z : Self) → same_total x y → same_total y z → same_total x z };

    ghost same_kept_on: { (x y z : Self) → same_kept x y → same_kept y z → same_kept x z };

    ghost same_total_from_start: { (x : Self) → same_total x x };

    ghost same_kept_from_start: { (x : Self) → same_kept x x };
}
