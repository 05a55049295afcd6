//! Where the numbers and values of a part go.
ghost use Rattle.std.specs.Prelude.{◌≡◌, OnOk};
ghost use Rattle.crash_free.specs.Standing.{and_number, and_value};

/// Takes the numbers and values of a part, one after another. One walk of a rank
/// gives them: a part is written by it, or compared with one that is kept.
pub trait RowSink {
    ghost use Rattle.crash_free.specs.Standing.{Rows};

    /// Why it takes no more.
    type Stop;

    /// What it took so far.
    ghost rows: { Self → Rows };

    /// Takes a number.
    fn number(&mut self, number: usize) -> Result<(), Self::Stop>
        ensures { OnOk result (rows self.new ≡ and_number (rows self.old) number) };

    /// Takes a value.
    fn value(&mut self, value: i64) -> Result<(), Self::Stop>
        ensures { OnOk result (rows self.new ≡ and_value (rows self.old) value) };
}
