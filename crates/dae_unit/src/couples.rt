// Couples of a type of one file and a type of another, and what is known of them.

use indexmap::IndexMap;

/// A type of one file and a type of another, by their numbers or, where both are structures, by those of the structures, since
/// each mention of a structure is a type of its own; and whether they stand behind a pointer.
#[derive(Clone, Copy, PartialEq, Eq, Hash)]
pub struct Couple {
    pub structures: bool,
    pub behind: bool,
    pub left: usize,
    pub right: usize,
}

/// A couple that is to be compared, within so many levels.
#[derive(Clone, Copy)]
pub struct Goal {
    pub couple: Couple,
    pub depth: usize,
}

/// A couple is to be compared; or it is to be noted as the same, once what it is made of has been compared.
#[derive(Clone, Copy)]
pub enum CoupleTask {
    Compare(Goal),
    Note(Couple),
}

/// What comes of a couple that is to be compared: what it is made of is compared further, if there is anything to compare; its
/// types differ, however many levels are looked at; or there are no levels left.
#[derive(Clone, Copy)]
pub enum Compared {
    Further,
    Differs,
    TooDeep,
}

/// What is known of a couple: its types are the same, as so many levels tell, or others.
#[derive(Clone, Copy)]
pub enum CoupleVerdict {
    Same(usize),
    Other,
}

/// What is known of couples.
pub type Verdicts = IndexMap<Couple, CoupleVerdict>;

/// What is known of the types of two files, by the files' numbers.
pub type KnownTypes = IndexMap<(usize, usize), Verdicts>;
