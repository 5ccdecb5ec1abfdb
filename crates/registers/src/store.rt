//! Stores of records.
ghost use Rattle.std.specs.Prelude.{◌≡◌, ℕ, ◌+◌, ◌<◌, List, [], ◌∷◌, ◌++◌, ◌==◌};
ghost use Rattle.record.specs.declared.Record.{Record};
ghost use Rattle.register.specs.Sets.{Emptiness};
ghost use Rattle.register.specs.Stored.{stored};
ghost use Rattle.registers.specs.Places.{is_there, look_alike};

use record::Record;

// A store of records, in the order in which they came, with room for some more.
pub(crate) trait Store {
    ghost records: { Self → List Record };

    ghost room: { Self → ℕ };

    // What appending does to a store.
    ghost Appends: { Self → Record → Self → Type 0 };

    // The records that are stored.
    fn records(&self) -> &[Record]
        ensures { result.now ≡ records self.now };

    // Whether there is no room.
    fn is_full(&self) -> bool
        ensures { result ≡ (room self.now == 0) };

    // Stores `r` after the others.
    fn append(&mut self, r: Record)
        requires { 0 < room self.old }
        ensures records { records self.new ≡ records self.old ++ r ∷ [] }
        ensures room { room self.new + 1 ≡ room self.old }
        ensures store { Appends self.old r self.new };
}

// Whether two records agree in signer, slot and result. Most differ there, which is seen at once:
// there is no branch between the three.
fn look_alike(a: &Record, b: &Record) -> bool
    ensures { result ≡ look_alike a.now b.now }
{
    (a.signer == b.signer) & (a.slot == b.slot) & (a.result == b.result)
}

// Whether `r` is a statement, and one of the records. With `==` alone a table's ask takes two to
// three times as long.
pub(crate) fn holds(records: &[Record], r: &Record) -> bool
    ensures { result ≡ stored is_there records.now r.now }
{
    r.keeps_layout()
        && records
            .iter()
            .any(|record| look_alike(record, r) && record == r)
}

// Whether none of the records is a statement.
pub(crate) fn holds_nothing(records: &[Record]) -> bool
    ensures { Emptiness (stored is_there records.now) result }
{
    !records.iter().any(|record| record.keeps_layout())
}
