// What is printed at the end: how many trees agree, or why the list was not replayed to its end.
use crate::list::Damage;
use std::fmt;

#[derive(Clone, Copy)]
pub struct Tally {
    pub agreed: u32,
    pub count: u32,
}

impl fmt::Display for Tally {
    fn fmt<W: fmt::Write>(&self, f: &mut fmt::Formatter<W>) -> fmt::Result {
        let Tally { agreed, count } = *self;
        if agreed < count {
            return write!(f, "{agreed} of {count} agree");
        }
        write!(f, "{agreed} agree")
    }
}

// Where a list is damaged: at the count of its trees, at a tree, or behind the last one. An error of its own.
#[derive(Clone, Copy)]
pub enum BadList {
    Count,
    Tree(u32, Damage),
    End(u32),
}

impl fmt::Display for BadList {
    fn fmt<W: fmt::Write>(&self, f: &mut fmt::Formatter<W>) -> fmt::Result {
        match self {
            BadList::Count => write!(f, "the list is cut off before its first tree"),
            BadList::Tree(tree, damage) => write!(f, "tree {tree}: {damage}"),
            BadList::End(count) => write!(f, "the list goes on behind its {count} trees"),
        }
    }
}
