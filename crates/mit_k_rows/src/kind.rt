ghost use Rattle.std.specs.Prelude.{◌≡◌};
ghost use Rattle.mit_k_rows.specs.RowKinds.{IsRowKind};

/// One of the kernel's kinds.
#[derive(Drop)]
pub struct RowKind {
    number: u8,
    ghost of_rows: { IsRowKind number },
}

impl RowKind {
    /// The kind of this number.
    pub fn new(number: u8) -> RowKind
        requires { IsRowKind number }
        ensures { result.number ≡ number }
    {
        RowKind { number }
    }

    /// Its number.
    pub fn number(&self) -> u8
        ensures { result ≡ self.now.number }
    {
        self.number
    }
}
