// Files in one list of bytes, each with its place.
ghost use Rattle.std.specs.Prelude.{◌≡◌, ◌≤◌, ◌<◌, ◌+◌, ◌∷◌, ◌++◌, [], Some, slice_get, length, vec_len, vec_capacity};
ghost use Rattle.outside.specs.Places.{file_at, files_at, IsWithin, AreWithin};

// A file's name stands from `start` to `middle`, and its contents from there to `end`.
#[derive(Clone, Copy, Debug)]
pub(crate) struct Place {
    pub(crate) start: usize,
    pub(crate) middle: usize,
    pub(crate) end: usize,
}

// The name and the contents of a file.
pub(crate) fn file_of<'a>(bytes: &'a [u8], places: &[Place], index: usize) -> (&'a [u8], &'a [u8])
    requires index { index < length places.now }
    requires within { AreWithin (length bytes.now) places.now }
    ensures { slice_get (files_at bytes.entry.now places.entry.now) index ≡ Some (result.0.now, result.1.now) }
{
    parts_at(bytes, places[index])
}

fn parts_at(bytes: &[u8], place: Place) -> (&[u8], &[u8])
    requires { IsWithin (length bytes.now) place }
    ensures { file_at bytes.entry.now place ≡ (result.0.now, result.1.now) }
{
    (
        &bytes[place.start..place.middle],
        &bytes[place.middle..place.end],
    )
}

// Adds a file at the end, for which there is room.
pub(crate) fn append_file(
    bytes: &mut Vec<u8>,
    places: &mut Vec<Place>,
    name: &[u8],
    contents: &[u8],
)
    requires bytes_room { vec_len bytes.old + length name.now + length contents.now ≤ vec_capacity bytes.old }
    requires places_room { vec_len places.old < vec_capacity places.old }
    requires within { AreWithin (length bytes.old.items) places.old.items }
    ensures files { files_at bytes.new.items places.new.items ≡ files_at bytes.old.items places.old.items ++ (name.now, contents.now) ∷ [] }
    ensures within { AreWithin (length bytes.new.items) places.new.items }
    ensures bytes_len { vec_len bytes.new ≡ vec_len bytes.old + length name.now + length contents.now }
    ensures places_len { vec_len places.new ≡ vec_len places.old + 1 }
    ensures bytes_capacity { vec_capacity bytes.old ≤ vec_capacity bytes.new }
    ensures places_capacity { vec_capacity places.new ≡ vec_capacity places.old }
{
    let start = bytes.len();
    let place = Place {
        start,
        middle: start + name.len(),
        end: start + name.len() + contents.len(),
    };
    let Ok(()) = bytes.extend_from_slice(name) else {
        unreachable!()
    };
    let Ok(()) = bytes.extend_from_slice(contents) else {
        unreachable!()
    };
    places.push_reserved(place);
}
