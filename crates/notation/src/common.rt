// Kinds of groups and of scramble moves: the Rust's common.rs.

#[derive(Clone, Copy, Debug, PartialEq, Eq)]
pub enum GroupKind {
    Simple,
    // `!`
    Macro,
    // `&`
    Simultaneous,
    // `^`: moves done on the inverse scramble (normal/inverse scramble switch)
    Niss,
}

#[derive(Clone, Copy, Debug, PartialEq, Eq)]
pub enum BinaryGroupKind {
    // `[A, B]`
    Commutator,
    // `[A: B]`
    Conjugate,
}

#[derive(Clone, Copy, Debug, PartialEq, Eq)]
pub enum MegaminxScrambleMove {
    Rpp,
    Rmm,
    Dpp,
    Dmm,
}
