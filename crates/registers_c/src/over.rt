//! The registers that requests are made on. Each export calls one of these, and promises the same.
ghost use Rattle.std.specs.Prelude.{◌≡◌, length};
ghost use Rattle.record.specs.Tapes.{places};
ghost use Rattle.register.specs.Sets.{nothing};
ghost use Rattle.registers.specs.Tables.{with_first};
ghost use Rattle.tape.specs.Tapes.{with_packed};
ghost use Rattle.registers_c.specs.Requests.{additions_of, UsesEmpty};

use crate::request::{Request, use_register};
use record::Record;
use registers::{SpareSheet, Table};
use tape::Tape;

// Makes the requests to an empty register over the tape. The statements that they add stand packed
// at its start, in order; the other bytes are as they were.
pub(crate) fn use_tape(tape: &mut [u8], requests: &mut [Request])
    ensures requests { UsesEmpty (places tape.old) requests.old requests.new }
    ensures tape { let added = additions_of nothing (places tape.old) requests.old in
        tape.new ≡ with_packed added tape.old }
{
    use_register(&mut Tape::new(tape), requests);
}

// Makes the requests to an empty register over the table. The statements that they add stand in its
// first places, in order; the others are as they were.
pub(crate) fn use_table(table: &mut [Record], requests: &mut [Request])
    ensures requests { UsesEmpty (length table.old) requests.old requests.new }
    ensures table { let added = additions_of nothing (length table.old) requests.old in
        table.new ≡ with_first added table.old }
{
    use_register(&mut Table::new(table), requests);
}

// Makes the requests to an empty register of 32 places of its own: two spare sheets over a table
// without a place.
pub(crate) fn use_sheets(requests: &mut [Request])
    ensures { UsesEmpty 32 requests.old requests.new }
{
    let table = Table::new(&mut []);
    use_register(&mut SpareSheet::new(SpareSheet::new(table)), requests);
}
