// The working buffers of a block, with the places of its coded bits. They are made once for blocks alike.
ghost use Rattle.std.specs.Prelude.{◌*◌, ◌≤◌};
ghost use Rattle.block.specs.Fits.{WorkLent};

use blockplaces::tables::Order;

// Room for a block's bits, for its labels and for a level's coded bits.
#[derive(Drop)]
pub struct Work<'a, const BITS: usize, const NUMBERS: usize> {
    pub order: Order<'a>,
    pub bits: [u8; BITS],
    pub labels: [u8; NUMBERS],
    pub coded: [u8; NUMBERS],
    pub ghost small: { (BITS ≤ 36708) × (NUMBERS ≤ 12236) },
    pub ghost number: { 2 * order.block.cells ≤ NUMBERS },
    pub ghost room: { WorkLent order.block bits labels coded },
}
