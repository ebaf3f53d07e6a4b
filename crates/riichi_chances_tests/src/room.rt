//! Places that a test lends.
use riichi_chances::Room;
use std::alloc::Global;
use std::test::Fail;

/// Room for so many hands. Where one request for memory is refused, the second has it.
pub(crate) fn room_for(alloc: Global, most: usize) -> Result<Room, Fail> {
    let mut room = Room::new(alloc);
    if room.make(most).is_err() && room.make(most).is_err() {
        return Err(Fail::from("no memory twice"));
    }
    Ok(room)
}
