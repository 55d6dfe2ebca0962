// The calls of a depot in memory.
ghost use Rattle.std.specs.Prelude.{◌≡◌, ◌≤◌, length, take, drop, Some};
ghost use Rattle.wdt_depot.specs.MemState.{mem_state, sound_in, stand_in};
ghost use Rattle.wdt_depot.specs.State.{IsEntered, at_spot};
ghost use Rattle.wdt_depot.specs.View.{index_of};

use crate::depot::Depot;
use crate::failure::DepotFail;
use crate::memory::MemDepot;
use crate::memory::changes::{make_parts, place_parts, sync_parts, write_parts};
use crate::memory::index::place_of;
use crate::spots::{drop_spot, path_at, push_spot};
use wdt_units::{Failed, Name, Spot};

// Reads as many bytes as there are from the offset on, up to the slice's length.
fn copy_part(bytes: &Vec<u8>, offset: u64, into: &mut [u8]) -> usize
    ensures fits { result ≤ length into.new }
    ensures bytes { take result into.new ≡ take (length into.old) (drop offset bytes.now.items) }
{
    let size = bytes.len();
    if offset >= size as u64 {
        return 0;
    }
    let from = offset as usize;
    let count = into.len().min(size - from);
    into[..count].copy_from_slice(&bytes[from..from + count]);
    count
}

impl MemDepot {
    // The place of an entered spot's file.
    fn place_at(&self, spot: Spot) -> usize
        requires { IsEntered spot.0 (mem_state self.now) }
        ensures { index_of self.now.store.index (at_spot spot.0 (mem_state self.now)) ≡ Some result }
    {
        match path_at(&self.spots, spot) {
            Some(path) => match place_of(&self.store.index, path) {
                Some(place) => place,
                None => 0,
            },
            None => 0,
        }
    }
}

impl Depot for MemDepot {
    ghost state = { λ m. mem_state m };

    fn make(&mut self, path: &Name) -> Result<(), DepotFail> {
        make_parts(&mut self.store, &mut self.health, path)
    }

    fn enter(&mut self, path: &Name) -> Result<Option<Spot>, DepotFail> {
        if self.health.is_down() {
            return Err(self.health.fault());
        }
        match place_of(&self.store.index, path) {
            None => Ok(None),
            Some(_) => {
                let spot = push_spot(&mut self.spots, path)?;
                Ok(Some(spot))
            }
        }
    }

    fn need(&mut self, path: &Name) -> Result<Spot, DepotFail> {
        if self.health.is_down() {
            return Err(self.health.fault());
        }
        match place_of(&self.store.index, path) {
            None => Err(self.health.own_fault(true)),
            Some(_) => {
                let spot = push_spot(&mut self.spots, path)?;
                Ok(spot)
            }
        }
    }

    fn leave(&mut self, spot: Spot) {
        drop_spot(&mut self.spots, spot);
    }

    fn length(&mut self, spot: Spot) -> Result<u64, DepotFail> {
        if self.health.is_down() {
            return Err(self.health.fault());
        }
        let place = self.place_at(spot);
        Ok(self.store.places[place].bytes.len() as u64)
    }

    fn read_at(&mut self, spot: Spot, offset: u64, into: &mut [u8]) -> Result<usize, DepotFail> {
        if self.health.is_down() {
            return Err(self.health.fault());
        }
        let place = self.place_at(spot);
        Ok(copy_part(&self.store.places[place].bytes, offset, into))
    }

    fn write_at(&mut self, spot: Spot, offset: u64, bytes: &[u8]) -> Result<(), DepotFail> {
        let place = self.place_at(spot);
        write_parts(&mut self.store, &mut self.health, place, offset, bytes)
    }

    fn sync(&mut self, spot: Spot) -> Result<(), Failed> {
        let place = self.place_at(spot);
        match sync_parts(&mut self.store, &mut self.health, place) {
            Err(_) => Err(Failed),
            Ok(()) => Ok(()),
        }
    }

    fn put_in_place(&mut self, from: &Name, to: &Name) -> Result<(), DepotFail> {
        place_parts(&mut self.store, &mut self.health, from, to)
    }

    ghost sound = { λ m. sound_in m };

    ghost spots_stand = { λ m. stand_in m };
}
