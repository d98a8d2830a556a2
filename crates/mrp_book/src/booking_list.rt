//! A list of bookings that only grows, and whose copies share all of it but its end.

use crate::booking::Booking;
use mrp_qty::NoMemory;
use std::alloc::Global;
use std::marker::Model;
use std::sync::Arc;

// The bookings of a chunk.
const CHUNK: usize = 512;

// Bookings in order. Whole chunks never change, so all copies share them.
#[derive(Drop)]
pub(crate) struct BookingList {
    chunks: Vec<Arc<Vec<Booking>>>,
    tail: Vec<Booking>,
}

impl Model for BookingList {
    ghost use Rattle.std.specs.Prelude.{List, map};
    ghost use Rattle.mrp_book.specs.declared.booking.Booking.{Booking};
    ghost use Rattle.mrp_book.specs.declared.booking_list.TheConstants.{CHUNK};
    ghost use Rattle.mrp_book.specs.Chunks.{AreChunks, joined};

    ghost Value = { List Booking };

    ghost view = { λ b. joined (map (λ c. c.value.items) b.chunks.items) b.tail.items };

    ghost invariant = { λ b. AreChunks CHUNK (map (λ c. c.value.items) b.chunks.items) };
}

impl BookingList {
    ghost use Rattle.std.specs.Prelude.{◌≡◌, ◌<◌, ◌++◌, ◌∷◌, [], IfOk, OnErr, OnOk, length, slice_index_or};

    // The list of these bookings.
    pub(crate) fn of(alloc: Global, bookings: Vec<Booking>) -> BookingList
        ensures { result ≡ bookings.items }
    {
        BookingList {
            chunks: Vec::new(alloc),
            tail: bookings,
        }
    }

    // The booking at a place, from 0.
    #[inline]
    pub(crate) fn at(&self, place: usize) -> Booking
        requires { place < length self.now }
        ensures { result ≡ slice_index_or self.now place result }
    {
        let chunk = place / CHUNK;
        if chunk < self.chunks.len() {
            self.chunks[chunk][place % CHUNK]
        } else {
            self.tail[place - CHUNK * self.chunks.len()]
        }
    }

    // Adds a booking. Errors: `NoMemory` if an allocation fails; then the list is unchanged.
    pub(crate) fn push(&mut self, alloc: Global, booking: Booking) -> Result<(), NoMemory>
        ensures pushed { OnOk result (self.new ≡ self.old ++ booking ∷ []) }
        ensures refused { OnErr result (self.new ≡ self.old) }
    {
        self.share_tail(alloc)?;
        self.tail.push(booking)?;
        Ok(())
    }

    // Makes a chunk of a tail that has the bookings of one. The list stays the same.
    fn share_tail(&mut self, alloc: Global) -> Result<(), NoMemory>
        ensures { self.new ≡ self.old }
    {
        if self.tail.len() == CHUNK {
            let chunk = Arc::new(alloc, Vec::from_slice(alloc, &self.tail)?)?;
            self.chunks.push(chunk)?;
            self.tail.clear();
        }
        Ok(())
    }

    // An equal list, which shares the chunks.
    pub(crate) fn copy(&self, alloc: Global) -> Result<BookingList, NoMemory>
        ensures { IfOk result (λ copy. copy ≡ self.now) }
    {
        let mut chunks = Vec::with_capacity(alloc, self.chunks.len())?;
        for chunk in &self.chunks {
            chunks.push(chunk.clone()?)?;
        }
        let tail = Vec::from_slice(alloc, &self.tail)?;
        Ok(BookingList { chunks, tail })
    }
}
