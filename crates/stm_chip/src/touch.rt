// The pages of a chip that an image touches.
ghost use Rattle.std.specs.Prelude.{◌≡◌, ◌↔◌, false, Err, IfOk, IsTrue};
ghost use Rattle.std.specs.List.{list_all};
ghost use Rattle.stm_wire.specs.Chip.{is_inside};
ghost use Rattle.stm_chip.specs.Touch.{AreTouched, HasBefore, HasFrom, HasOutside, HasWithin};

use crate::PlanFault;
use std::alloc::Global;
use stm_image::Image;
use stm_wire::Chip;

/// Whether a place of the image lies before an address.
fn has_before(image: &Image, address: u32) -> bool
    ensures { IsTrue result ↔ HasBefore image.now address }
{
    match image.next_from(0) {
        Some((place, _)) => place < address,
        None => false,
    }
}

/// Whether a place of the image lies at an address or after it. The address may be the end of all.
fn has_from(image: &Image, address: u64) -> bool
    ensures { IsTrue result ↔ HasFrom image.now address }
{
    if image.len() == 0 {
        return false;
    }
    match u32::try_from(address) {
        Ok(address) => image.next_from(address).is_some(),
        Err(_) => false,
    }
}

/// Whether each place of the image lies inside the flash. It asks the image for
/// two of its places alone.
pub fn is_inside_flash(chip: &Chip, image: &Image) -> bool
    ensures each { result ≡ list_all (λ pair. is_inside chip.now pair.0) image.now }
    ensures inside { IsTrue result ↔ ¬ HasOutside chip.now image.now }
    ensures outside { result ≡ false → HasOutside chip.now image.now }
{
    !has_before(image, chip.base()) && !has_from(image, chip.end())
}

/// Whether a place of the image lies among the `size` bytes from `start` on.
fn has_within(image: &Image, start: u32, size: u32) -> bool
    ensures { IsTrue result ↔ HasWithin image.now start size }
{
    match image.next_from(start) {
        Some((place, _)) => place - start < size,
        None => false,
    }
}

/// The pages that hold a place of the image, rising, each once; `OutOfFlash` exactly where a place
/// of it lies outside the flash.
///
/// It asks the image for its next place twice, and then once a page from the page's start on. So
/// the look-ups are as many as the pages and two, however many bytes the image has.
pub fn touched(alloc: Global, chip: &Chip, image: &Image) -> Result<Vec<u16>, PlanFault>
    ensures pages { IfOk result (λ pages. AreTouched chip.now image.now pages.items) }
    ensures outside { (result ≡ Err PlanFault.OutOfFlash) ↔ HasOutside chip.now image.now }
{
    if !is_inside_flash(chip, image) {
        return Err(PlanFault::OutOfFlash);
    }
    // So each page's start has 32 bits.
    chip.keeps_limits();
    let mut pages = Vec::new(alloc);
    // Where page `n` begins, from the flash's first byte; `page_start` would sum the
    // pages before it each time.
    let mut offset = 0;
    for n in 0..chip.pages() {
        let size = chip.page_size(n);
        if has_within(image, chip.base() + offset, size) {
            pages.push(n)?;
        }
        offset += size;
    }
    Ok(pages)
}
