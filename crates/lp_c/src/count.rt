//! How many symbols there are.
ghost use Rattle.std.specs.Prelude.{◌≡◌, ◌≤◌, IfSome};

use livepatch::Numbering;

/// So many symbols, whose names stay with C.
#[derive(Drop)]
pub(crate) struct SymbolCount {
    pub(crate) count: u16,
    ghost few: { count ≤ 4096 },
}

impl SymbolCount {
    /// So many symbols; None where they are more than 4,096.
    pub(crate) fn new(count: u16) -> Option<SymbolCount>
        ensures { IfSome result (λ symbols. symbols.count ≡ count) }
    {
        if count > 4096 {
            return None;
        }
        Some(SymbolCount { count })
    }
}

impl Numbering for SymbolCount {
    ghost count = { λ s. s.count };

    fn count(&self) -> usize {
        usize::from(self.count)
    }
}
