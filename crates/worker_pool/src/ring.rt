use std::sync::Condvar;

/// Whom a ring is for.
#[derive(Clone, Copy, PartialEq, Eq)]
pub(crate) enum Whom {
    Nobody,
    One,
    All,
}

/// A ring that is owed: whom a worker wakes once it has left the lock. It is not `Drop`, so whoever has it sounds it.
pub struct Ring {
    pub(crate) whom: Whom,
}

impl Ring {
    /// Wakes nobody.
    pub fn for_nobody() -> Ring {
        Ring { whom: Whom::Nobody }
    }

    /// Wakes whom it is for.
    pub fn sound(self, bell: &Condvar) {
        let Ring { whom } = self;
        match whom {
            Whom::Nobody => {}
            Whom::One => bell.notify_one(),
            Whom::All => bell.notify_all(),
        }
    }
}
