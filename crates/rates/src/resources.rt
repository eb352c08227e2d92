/// A number for each resource. Each use says whether these are units or grains.
#[derive(Clone, Copy, Debug, PartialEq, Eq)]
pub struct Resources {
    pub metal: u64,
    pub crystal: u64,
    pub deuterium: u64,
}
