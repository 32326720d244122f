//! Growth by bands in threads, which gives the image of one thread, and zeros that are made beside other work.

use crate::played::{Outcome, told};
use band_growth::{ManyThreads, grow_in_bands, grow_on};
use grid_core::{Conn, Grid};
use raster_sweeps::{Blanks, Grower, OneThread, grow};
use std::alloc::Global;
use std::marker::Sync;
use std::test::Fail;
use std::thread::Threads;

// A mask, a marker, and what grows from it in one thread.
#[derive(Drop)]
struct Growing {
    alloc: Global,
    mask: Grid,
    marker: Grid,
    grown: Grid,
}

// How an image grows from the marker: by so many bands, by so many threads, or by as many as there are processors.
#[derive(Clone, Copy)]
enum By {
    Bands(usize),
    Threads(usize),
    Processors,
}

// A mask of so many columns and rows, of hills that look random.
fn hills(alloc: Global, columns: u32, rows: u32) -> Option<Grid> {
    let mut mask = Grid::new(alloc, columns, rows, 0).ok()?;
    let mut place: u16 = 0;
    for cell in mask.cells_mut() {
        *cell = place.wrapping_mul(place) % 251 + 1;
        place = place.wrapping_add(1);
    }
    Some(mask)
}

// One pixel in 97 of a mask, and 0 elsewhere.
fn marker_of(alloc: Global, mask: &Grid) -> Option<Grid> {
    let mut marker = mask.copy(alloc).ok()?;
    let mut place: u32 = 0;
    for cell in marker.cells_mut() {
        if place % 97 > 0 {
            *cell = 0;
        }
        place = place.wrapping_add(1);
    }
    Some(marker)
}

// What one thread grows from a marker.
fn grown_of(alloc: Global, mask: &Grid, marker: &Grid) -> Option<Grid> {
    if marker.is_below(mask) {
        grow(alloc, mask, marker, Conn::Eight).ok()
    } else {
        None
    }
}

// A mask of so many columns and rows with its marker, and what grows from it, where there is memory.
fn growing_on(alloc: Global, columns: u32, rows: u32) -> Option<Growing> {
    let mask = hills(alloc, columns, rows)?;
    let marker = marker_of(alloc, &mask)?;
    let grown = grown_of(alloc, &mask, &marker)?;
    Some(Growing {
        alloc,
        mask,
        marker,
        grown,
    })
}

impl Growing {
    // Grows an image, where it and the marker are below the mask and there is memory.
    fn grow<R: Threads + Sync>(&self, rt: &R, image: &mut Grid, by: By) -> Option<()> {
        let (alloc, mask, marker, conn) = (self.alloc, &self.mask, &self.marker, Conn::Eight);
        if !image.is_below(mask) || !marker.is_below(mask) {
            return Some(());
        }
        match by {
            By::Bands(bands) => grow_in_bands(rt, alloc, mask, image, conn, bands).ok(),
            By::Threads(threads) => {
                *image = grow_on(rt, alloc, mask, marker, conn, threads).ok()?;
                Some(())
            }
            By::Processors => ManyThreads::new(rt).grow(alloc, mask, image, conn).ok(),
        }
    }

    // What becomes of an image that grows so, and once more where memory was wanting.
    fn outcome<R: Threads + Sync>(&self, rt: &R, by: By) -> Outcome {
        let Ok(mut image) = self.marker.copy(self.alloc) else {
            return Outcome::NoMemory;
        };
        for _ in 0..2 {
            if !image.is_same(&self.marker) {
                return Outcome::Changed(0);
            }
            if self.grow(rt, &mut image, by).is_some() {
                return if image.is_same(&self.grown) {
                    Outcome::Right
                } else {
                    Outcome::Wrong(0)
                };
            }
        }
        Outcome::Changed(0)
    }
}

// Plays one, two, three and five bands, and as many threads, on an image of so many rows.
fn plays<R: Threads + Sync>(rt: &R, alloc: Global, rows: u32) -> Result<(), Fail> {
    let Some(growing) = growing_on(alloc, 40, rows) else {
        return told("an image", Outcome::NoMemory);
    };
    for number in [1, 2, 3, 5] {
        told("bands", growing.outcome(rt, By::Bands(number)))?;
        told("threads", growing.outcome(rt, By::Threads(number)))?;
    }
    Ok(())
}

#[test]
fn bands_give_the_image_of_one_thread(rt: HostRuntime) -> Result<(), Fail> {
    for rows in [1, 2, 3, 5, 17, 64, 300, 2_100] {
        plays(&rt, rt.alloc(), rows)?;
    }
    Ok(())
}

#[test]
fn bands_of_six_hundred_rows_tried_again(rt: HostRuntime) -> Result<(), Fail> {
    plays(&rt, rt.alloc(), 600)
}

// With fewer pixels one thread does it alone.
#[test]
fn as_many_threads_as_there_are_processors_tried_again(rt: HostRuntime) -> Result<(), Fail> {
    match growing_on(rt.alloc(), 1_000, 2_000) {
        Some(growing) => told("threads", growing.outcome(&rt, By::Processors)),
        None => told("threads", Outcome::NoMemory),
    }
}

// What becomes of so many zeros that a grower makes beside some work, and once more where memory was wanting.
fn zeros_by<G: Grower>(grower: &G, alloc: Global, count: usize) -> Outcome {
    for _ in 0..2 {
        let (sum, zeros) = grower.zeros_beside(alloc, count, || 40_u32.wrapping_add(2));
        if sum != 42 {
            return Outcome::Wrong(count);
        }
        if let Ok(cells) = zeros {
            let are_zeros = cells.len() == count && cells.iter().all(|cell| *cell == 0);
            return if are_zeros {
                Outcome::Right
            } else {
                Outcome::Wrong(count)
            };
        }
    }
    Outcome::Changed(count)
}

#[test]
fn zeros_beside_other_work_tried_again(rt: HostRuntime) -> Result<(), Fail> {
    for count in [0, 1, 1_999_999, 2_000_000, 2_000_001] {
        told(
            "zeros in one thread",
            zeros_by(&OneThread, rt.alloc(), count),
        )?;
        told(
            "zeros beside",
            zeros_by(&ManyThreads::new(&rt), rt.alloc(), count),
        )?;
    }
    Ok(())
}

// How many images of a mask's size are taken of blanks, in five attempts.
fn taken_of(blanks: Blanks, mask: &Grid) -> usize {
    let mut blanks = blanks;
    let mut taken: usize = 0;
    for _ in 0..5 {
        if blanks.take(mask).is_some() {
            taken = taken.wrapping_add(1);
        }
    }
    taken
}

// What becomes of memory for three images that a grower makes beside some work, and once more where some was wanting.
fn blanks_by<G: Grower>(grower: &G, alloc: Global, mask: &Grid) -> Outcome {
    for _ in 0..2 {
        let pixels = mask.cells().len();
        let (sum, blanks) = Blanks::beside(grower, alloc, 3, pixels, || 40_u32.wrapping_add(2));
        if sum != 42 {
            return Outcome::Wrong(pixels);
        }
        if taken_of(blanks, mask) == 3 {
            return Outcome::Right;
        }
    }
    Outcome::Changed(3)
}

#[test]
fn images_beside_other_work_tried_again(rt: HostRuntime) -> Result<(), Fail> {
    let Some(mask) = hills(rt.alloc(), 1_000, 2_000) else {
        return told("a mask", Outcome::NoMemory);
    };
    told(
        "images in one thread",
        blanks_by(&OneThread, rt.alloc(), &mask),
    )?;
    told(
        "images beside",
        blanks_by(&ManyThreads::new(&rt), rt.alloc(), &mask),
    )
}
