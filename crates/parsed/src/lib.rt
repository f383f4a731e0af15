// What a reader hands back where it reads something: what it read, and the offset of the text after it.

#![tactic(auto)]

#[derive(Clone, Copy, Debug, PartialEq, Eq)]
pub struct Parsed<T> {
    pub value: T,
    pub next: usize,
}
