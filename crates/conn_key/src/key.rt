/// What two transfers must share to use one connection: the site that it is open to, by its index
/// among the sites, and the lane, a number that stands for all else that must match.
#[derive(Clone, Copy, Debug, PartialEq, Eq, PartialOrd, Ord, Hash)]
pub struct Key {
    pub site: u32,
    pub lane: u32,
}
