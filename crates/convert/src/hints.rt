// Hints: for a code or a code point, the place where a look-up looks first. It tests the line there before it takes it,
// so any number will do as a hint, and nothing here is promised: a good hint only saves the search.
ghost use Rattle.std.specs.Prelude.{◌≡◌, length};

use table::store::RANK;

// The slots of the hints, each 16 bits: 32 KiB.
pub(crate) const SLOTS: usize = 16384;

// The same number in 32 bits.
const SLOTS_32: u32 = SLOTS as u32;

// A 16-bit number as a place.
fn place_of(x: u16) -> usize
    ensures { result ≡ x }
{
    x as usize
}

// The hint of a slot. Past the slots there is none: no table has a line at that place.
pub(crate) fn hint_at(hints: &[u16], slot: usize) -> usize {
    if slot < hints.len() {
        return place_of(hints[slot]);
    }
    65535
}

// The slot of a code. No two codes of Shift-JIS share one: the first two bytes give it, and the first byte's top two
// bits are added so that codes with the same bits below do not meet. Two more bytes are mixed in by a product.
pub(crate) fn code_slot(bits: u32) -> usize {
    ((bits / 65536 + bits / 1073741824 + bits % 65536 * 40503 / 16) % SLOTS_32) as usize
}

// The slot of a code point.
pub(crate) fn point_slot(point: u32) -> usize {
    ((point % RANK + point / SLOTS_32) % SLOTS_32) as usize
}

// The slot that a stored line's code point is filled in at; a `|3` line writes nothing and has none.
pub(crate) fn written_slot(info: u32) -> usize {
    if info / RANK % 8 == 1 {
        return SLOTS;
    }
    point_slot(info % RANK)
}

// Fills in the places of lines, each at the slot that `slot_of` gives for the line's number, from the last to the
// first: where several share a slot, the first keeps it.
pub(crate) fn fill<F: Fn(u32) -> usize>(slot_of: F, numbers: &[u32], hints: &mut [u16])
    requires { F.IsAlwaysCallable slot_of }
    ensures { length hints.new ≡ length hints.old }
{
    for k in (0..numbers.len()).rev() {
        let slot = slot_of(numbers[k]);
        if slot < hints.len() {
            hints[slot] = (k % 65536) as u16;
        }
    }
}
