ghost use Rattle.std.specs.Prelude.{◌≡◌, ◌+◌, ◌<◌};
ghost use Rattle.desk_run.specs.Rule.{count_places};

use crate::rule::Order;
use crate::size::BoardSize;
use crate::slot::Slot;
use crate::view::View;
use atomic_table::Table;
use std::alloc::Global;

/// The places that the seats share: for each an atomic word and a slot.
#[derive(Drop)]
pub struct Board {
    pub(crate) table: Table<Slot, View, BoardSize, Order, Global>,
    pub(crate) size: BoardSize,
    ghost keyed: { table.shared.key ≡ size },
    ghost sized: { (table.shared.table_id.words ≡ 2 + count_places size) × (table.shared.table_id.slots ≡ count_places size) × (count_places size < 4096) },
}

impl Board {
    pub(crate) fn place_count(&self) -> usize
        ensures { result ≡ self.now.table.shared.table_id.slots }
    {
        self.table.slot_count()
    }
}
