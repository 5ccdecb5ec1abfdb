ghost use Rattle.std.specs.Prelude.{◌≡◌, ◌≤◌, length};

use crate::entering::enter;
use crate::store::{Store, holds, holds_nothing};
use record::Record;
use refusal::Refusal;
use register::Register;

/// A register over records that the caller lends. It is scanned and written in place: a new
/// statement goes to the lowest free place, and nothing else of the caller's memory changes.
#[derive(Drop)]
pub struct Table<'a> {
    // What the caller lends is written in place, so its length stands beside it.
    places: &'a mut [Record],
    // How many of the places are used, the first ones.
    used: usize,
    ghost fits: { used ≤ length places.now },
}

impl<'a> Table<'a> {
    ghost use Rattle.register.specs.Sets.{nothing};
    ghost use Rattle.registers.specs.Tables.{table_held, table_free};

    /// An empty register over these places, whatever they hold. Each is a free place.
    pub fn new(places: &'a mut [Record]) -> Table<'a>
        ensures held { table_held result ≡ nothing }
        ensures free { table_free result ≡ length places.old }
        ensures used { result.used ≡ 0 }
        ensures places { result.places.now ≡ places.old }
        ensures lent { result.places.ghost_name ≡ places.entry.ghost_name }
    {
        Table { places, used: 0 }
    }
}

impl<'a> Store for Table<'a> {
    ghost use Rattle.registers.specs.Tables.{table_records, table_free, table_memory, table_stores};

    ghost records = { table_records };

    ghost room = { table_free };

    ghost Appends = { λ t r t'. table_memory t' ≡ table_stores (table_memory t) r };

    fn records(&self) -> &[Record] {
        &self.places[..self.used]
    }

    fn is_full(&self) -> bool {
        self.used == self.places.len()
    }

    fn append(&mut self, r: Record) {
        self.places[self.used] = r;
        self.used += 1;
    }
}

impl<'a> Register for Table<'a> {
    ghost use Rattle.registers.specs.Tables.{TableMemory, table_held, table_free, table_memory, table_stores};

    ghost held = { table_held };

    ghost free = { table_free };

    ghost Memory = { TableMemory };

    ghost memory = { table_memory };

    ghost stores = { table_stores };

    fn ask(&self, r: &Record) -> bool {
        holds(self.records(), r)
    }

    fn is_empty(&self) -> bool {
        holds_nothing(self.records())
    }

    fn enter(&mut self, r: &Record) -> Result<(), Refusal> {
        enter(self, r)
    }
}
