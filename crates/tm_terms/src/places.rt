/// A place of the source: line and byte column, each counted from 1 over the input itself.
/// The place 0:0 stands for none.
#[derive(Clone, Copy, PartialEq, Eq, PartialOrd, Ord, Hash, Debug)]
pub struct Place {
    pub line: u32,
    pub col: u32,
}
