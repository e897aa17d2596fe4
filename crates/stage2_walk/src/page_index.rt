// The index of the pages of a file, by their frames.
ghost use Rattle.std.specs.Prelude.{◌≡◌, ◌≢◌, ℕ, ◌+◌, ◌*◌, ◌<◌, ◌^◌, length, map, IfOk, IfErr, OnOk, Err, None};
ghost use Rattle.stage2_walk.specs.Pages.{frames_of, number_at, pages_at};
ghost use Rattle.stage2_walk.specs.Files.{checked, first_repeat};
ghost use Rattle.stage2_walk.specs.PrivatePlaceMaps.{ArePlaces, entry_of};

use crate::bytes::{HEADER_BYTES, PAGE_BYTES, read_number};
use crate::image_fault::ImageFault;
use crate::places::Place;
use std::alloc::{AllocError, Global};
use std::collections::BTreeMap;

/// The places of the pages of a file by their frames, or the first page whose frame stands earlier. All frames are low.
pub fn find_places(
    alloc: Global,
    bytes: &[u8],
    count: usize,
) -> Result<BTreeMap<u64, usize>, ImageFault>
    requires size { length bytes.now ≡ 24 + 4104 * count }
    requires low { (k : ℕ) → k < count → number_at bytes.now (24 + 4104 * k) < 2 ^ 28 }
    ensures places { IfOk result (λ places. ArePlaces bytes.now count places) }
    ensures apart { OnOk result (first_repeat (frames_of (pages_at bytes.now 24 count)) ≡ None) }
    ensures err { IfErr result (λ fault. fault ≢ ImageFault.Memory → (root : ℕ) → checked root (pages_at bytes.now 24 count) ≡ Err fault) }
{
    let mut places = BTreeMap::new(alloc);
    for place in 0..count {
        let frame = read_number(bytes, HEADER_BYTES + PAGE_BYTES * place);
        if places.contains_key(&frame) {
            return Err(ImageFault::FrameTwice(place as u64));
        }
        places.insert(frame, place)?;
    }
    Ok(places)
}

/// The places as a list, in the order of the frames.
pub fn list_places(alloc: Global, places: &BTreeMap<u64, usize>) -> Result<Vec<Place>, AllocError>
    ensures { IfOk result (λ index. index.items ≡ map entry_of places.now.entries) }
{
    let mut index = Vec::new(alloc);
    for (frame, place) in places {
        index.push(Place {
            frame: *frame,
            place: *place,
        })?;
    }
    Ok(index)
}
