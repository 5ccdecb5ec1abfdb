ghost use Rattle.std.specs.Prelude.{◌≡◌, ◌+◌, ◌∷◌, [], ◌++◌};

use crate::entering::enter;
use crate::store::{Store, holds, holds_nothing};
use arrayvec::ArrayVec;
use record::Record;
use refusal::Refusal;
use register::Register;

const PLACES: usize = 16;

impl Store for ArrayVec<Record, PLACES> {
    ghost use Rattle.registers.specs.Sheets.{sheet_free};

    ghost records = { λ t. t.items };

    ghost room = { sheet_free };

    ghost Appends = { λ t r t'. t'.items ≡ t.items ++ r ∷ [] };

    fn records(&self) -> &[Record] {
        self.as_slice()
    }

    fn is_full(&self) -> bool {
        ArrayVec::is_full(self)
    }

    fn append(&mut self, r: Record) {
        self.push(r);
    }
}

/// A register with 16 places more than the one below it. They are used once that one is full.
#[derive(Drop)]
pub struct SpareSheet<R> {
    below: R,
    sheet: ArrayVec<Record, PLACES>,
}

impl<R: Register> SpareSheet<R> {
    ghost use Rattle.register.specs.Sets.{nothing};
    ghost use Rattle.registers.specs.Sheets.{sheet_held, spare_held, spare_free};

    /// Lays an empty sheet over a register: the set stays, and there are 16 free places more.
    pub fn new(below: R) -> SpareSheet<R>
        ensures held { spare_held R.Register result ≡ R.held below }
        ensures free { spare_free R.Register result ≡ R.free below + 16 }
        ensures below { result.below ≡ below }
        ensures sheet { sheet_held result.sheet ≡ nothing }
    {
        SpareSheet {
            below,
            sheet: ArrayVec::new(),
        }
    }
}

impl<R: Register> Register for SpareSheet<R> {
    ghost use Rattle.std.specs.List.{fold};
    ghost use Rattle.register.specs.Sets.{addition, EnteredInto};
    ghost use Rattle.registers.specs.Sheets.{SheetMemory, spare_held, spare_free, spare_memory, spare_stores, BelowFirst};

    ghost held = { spare_held R.Register };

    ghost free = { spare_free R.Register };

    ghost Memory = { SheetMemory R.Memory };

    ghost memory = { spare_memory R.Register };

    ghost stores = { spare_stores R.Register };

    fn ask(&self, r: &Record) -> bool {
        self.below.ask(r) || holds(self.sheet.records(), r)
    }

    fn is_empty(&self) -> bool {
        self.below.is_empty() && holds_nothing(self.sheet.records())
    }

    /// A new statement is entered below. The sheet takes it only if the register below refuses it.
    fn enter(&mut self, r: &Record) -> Result<(), Refusal>
        ensures entered { let held = spare_held R.Register in
            let free = spare_free R.Register in
            EnteredInto (held self.old) (free self.old) r.now result
            (held self.new) (free self.new) }
        ensures memory { let held = spare_held R.Register self.old in
            let added = addition held (spare_free R.Register self.old) r.now in
            spare_memory R.Register self.new
            ≡ fold (spare_stores R.Register) (spare_memory R.Register self.old) added }
        ensures order { BelowFirst R.Register self.old r.now self.new }
    {
        if holds(self.sheet.records(), r) {
            return Ok(());
        }
        if self.below.enter(r).is_ok() {
            return Ok(());
        }
        enter(&mut self.sheet, r)
    }
}
