ghost use Rattle.std.specs.Prelude.{◌≡◌, ◌≤◌, true, length, replicate, is_some, if◌then◌else◌, Some, None, slice_set};
ghost use Rattle.cache.specs.Held.{has, pages_in, copy_of, copies, slot_at, Full, shown, Finds, Replaces};

use crate::copy::Copied;
use crate::place::Place;
use crate::slot::Slot;
use crate::slots::{SLOTS, Slots};
use device::Page;

impl Slots {
    pub fn new() -> Self
        ensures { pages_in result.all ≡ replicate 8 None }
    {
        Slots {
            all: [Slot::EMPTY; SLOTS],
            uses: 0,
        }
    }

    // The slot that has the page.
    pub fn find(&self, page: u32) -> Option<Place>
        ensures { Finds (pages_in self.now.all) page result }
    {
        let number = self.all.iter().position(|slot| slot.has(page))?;
        Some(Place { number })
    }

    pub fn get(&self, place: Place) -> Option<Copied>
        ensures { result ≡ slot_at (pages_in self.now.all) place.number }
    {
        self.all[place.number].copy
    }

    // An empty slot, or if there is none, the one used longest ago.
    pub fn oldest(&self) -> Place
        ensures { is_some (slot_at (pages_in self.now.all) result.number) ≡ true → Full (pages_in self.now.all) }
    {
        let slots = self.all.iter().enumerate();
        let (number, _) = slots
            .min_by_key(|(_, slot)| (slot.copy.is_some(), slot.used))
            .unwrap();
        Place { number }
    }

    // Puts a copy into a slot. No other slot has its page.
    pub fn put(&mut self, place: Place, copy: Copied)
        requires { copies (pages_in self.old.all) copy.page ≤ (if has (slot_at (pages_in self.old.all) place.number) copy.page then 1 else 0) }
        ensures slots { pages_in self.new.all ≡ slice_set (pages_in self.old.all) place.number (Some copy) }
        ensures replaces { Replaces (slot_at (pages_in self.old.all) place.number) copy (copy_of (pages_in self.old.all)) (copy_of (pages_in self.new.all)) }
    {
        self.all[place.number].copy = Some(copy);
    }

    // Copies the bytes of the page in a slot, if there is one, into the buffer: a page that is answered by value is copied once
    // more. The slot is then the one used last.
    pub fn show(&mut self, place: Place, buffer: &mut Page)
        ensures pages { pages_in self.new.all ≡ pages_in self.old.all }
        ensures bytes { buffer.new ≡ shown (slot_at (pages_in self.old.all) place.number) buffer.old }
    {
        self.touch(place);
        if let Some(copy) = self.get(place) {
            let bytes = copy.bytes;
            *buffer = bytes;
        }
    }

    // Marks a slot as the one used last.
    pub fn touch(&mut self, place: Place)
        ensures { pages_in self.new.all ≡ pages_in self.old.all }
    {
        self.uses = self.uses.saturating_add(1);
        self.all[place.number].used = self.uses;
    }
}
