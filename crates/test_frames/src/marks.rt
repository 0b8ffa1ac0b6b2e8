// What shows that nothing was written.
use algebra_survivor::Survivor;
use frame_desk::{BYTE, Desk, MARK, WORD};

// What a lent buffer is full of, and no test's take writes.
pub(crate) trait Mark {
    fn is_mark(&self) -> bool;
}

impl Mark for Survivor {
    fn is_mark(&self) -> bool {
        self.word == MARK.word && self.cost == MARK.cost && self.length == MARK.length
    }
}

impl Mark for u32 {
    fn is_mark(&self) -> bool {
        *self == WORD
    }
}

impl Mark for u8 {
    fn is_mark(&self) -> bool {
        *self == BYTE
    }
}

pub(crate) fn is_marked<T: Mark>(items: &[T]) -> bool {
    items.iter().all(|item| item.is_mark())
}

// Whether no take wrote anything.
pub(crate) fn is_untouched(desk: &Desk) -> bool {
    is_marked(desk.work.as_slice())
        && is_marked(desk.row.as_slice())
        && is_marked(desk.store.as_slice())
}
