//! Tables that refusal 6 lets through.
ghost use Rattle.std.specs.Prelude.{◌≡◌, true, false, IfOk, IfErr};
ghost use Rattle.tables.specs.Table.{bad_table};

use crate::{Family, bad_table};
use refusals::Refusal;

/// A lent table that has been checked.
#[derive(Clone, Copy, Debug, PartialEq, Eq)]
pub struct Table<'a> {
    pub family: Family,
    pub codes: &'a [u64],
    ghost sound: { bad_table family codes.now ≡ false },
}

impl<'a> Table<'a> {
    /// The table, where refusal 6 lets it through, and else that refusal.
    pub fn new(family: Family, codes: &'a [u64]) -> Result<Table<'a>, Refusal>
        ensures ok { IfOk result (λ t. (t.family ≡ family) × (t.codes.now ≡ codes.now) × (bad_table family codes.now ≡ false)) }
        ensures refused { IfErr result (λ e. (e ≡ Refusal.Table) × (bad_table family codes.now ≡ true)) }
    {
        if bad_table(family, codes) {
            return Err(Refusal::Table);
        }
        Ok(Table { family, codes })
    }
}
