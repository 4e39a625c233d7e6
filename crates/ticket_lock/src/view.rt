ghost use Rattle.std.specs.Prelude.{ℕ, Bool};
ghost use Rattle.std.specs.declared.option.Option.{Option};
ghost use Rattle.std.specs.Coded.{coded_bool, coded_option, coded_ℕ};
ghost use Rattle.std.specs.Borrow.{ftrue};

use std::marker::{Model, PhantomData};

/// What a pass has and knows. No value of it is made.
pub struct View<S, C> {
    marker: PhantomData<(S, C)>,
    /// The ticket that it has drawn.
    pub ghost ticket: { Option ℕ } by { coded_option coded_ℕ },
    /// Whether it has the value.
    pub ghost has: { Bool } by { coded_bool },
    /// The value as its last turn found it.
    pub ghost noted: { Option S } by { coded_option S.code },
    /// What its holder says that it knows.
    pub ghost core: { C },
}

impl<S, C> Model for View<S, C> {
    ghost also_owns = { λ _. ftrue };
}
