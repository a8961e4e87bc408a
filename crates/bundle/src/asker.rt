/// The key with which the calls of a bundle ask a budget for permits. Nobody else makes it, so a
/// permit is asked for by a bundle's call alone.
#[derive(Drop)]
pub struct Asker {
    of: (),
}

impl Asker {
    // The key, for one question.
    #[inline(always)]
    pub(crate) fn of_bundle() -> Self {
        Asker { of: () }
    }
}
