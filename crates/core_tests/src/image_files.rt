//! Files of images: read, refused, written, and carried from a source to a sink.

use byte_devices::{MemorySink, MemorySource};
use pgm_codec::PgmError::{
    BadHeader, BadMagic, BadMaxval, BadSample, SampleRange, TooLarge, Trailing, Truncated, ZeroSize,
};
use pgm_codec::{Image, PgmError, read, read_all_within, read_from, write_plain, write_to};
use std::alloc::Global;

// Texts, and the plain files of the images that they spell.
const SPELLED: &[(&[u8], &[u8])] = &[
    (
        b"P5\n# CREATOR: x\n2 1\n255\n\x0a\x23",
        b"P2\n2 1\n255\n10 35\n",
    ),
    (b"P5\n1 1\n256\n\x01\x00", b"P2\n1 1\n256\n256\n"),
    (b"P5\n0002 1\n255\n\x0a\x23", b"P2\n2 1\n255\n10 35\n"),
    (
        b"P2 12 1 9 1 2 3 4 5 6 7 8 9 0 1 2",
        b"P2\n12 1\n9\n1 2 3 4 5 6 7 8 9 0 1\n2\n",
    ),
];

// Whether a copy of the image's grid has its values.
fn is_copied(alloc: Global, image: &Image) -> bool {
    matches!(image.to_grid(alloc), Ok(copy) if copy.cells() == image.samples())
}

fn has_plain_file(alloc: Global, image: &Image, plain: &[u8]) -> bool {
    matches!(write_plain(alloc, image), Ok(written) if written.as_slice() == plain)
}

// Whether a text spells an image that can be copied and has this plain file.
fn spells(alloc: Global, text: &[u8], plain: &[u8]) -> bool {
    match read(alloc, text) {
        Ok(image) => is_copied(alloc, &image) && has_plain_file(alloc, &image, plain),
        Err(_) => false,
    }
}

#[test]
fn texts_spell_images_whose_plain_files_are_written(rt: HostRuntime) {
    for (text, plain) in SPELLED {
        assert!(rt; spells(rt.alloc(), text, plain), "{plain:?}");
    }
}

// Texts that spell no image, and why.
const REFUSED: &[(PgmError, &[u8])] = &[
    (BadMagic, b"P6\n1 1\n1\n1"),
    (
        TooLarge,
        b"P5\n9999999999999999999999999999999999999999 1\n",
    ),
    (
        BadMaxval,
        b"P5\n1 1\n9999999999999999999999999999999999999999\n\x01",
    ),
    (
        SampleRange,
        b"P2 1 1 9 9999999999999999999999999999999999999999",
    ),
    (BadHeader, b"P5#x"),
    (ZeroSize, b"P5\n0 1\n"),
    (TooLarge, b"P5\n16385 1\n"),
    (TooLarge, b"P5\n16384 4097\n"),
    (Truncated, b"P5\n16384 4096\n"),
    (BadMaxval, b"P5\n1 1\n0\n\x01"),
    (BadMaxval, b"P5\n1 1\n65536\n\xff\xff"),
    (SampleRange, b"P5\n1 1\n256\n\x01\x01"),
    (Truncated, b"P5\n# CREATOR: x\n2 1\n255\n\x0a"),
    (Trailing, b"P5\n# CREATOR: x\n2 1\n255\n\x0a\x23\x00"),
    (Trailing, b"P5\n# CREATOR: x\n2 1\n255\r\n\x0a\x23"),
    (BadSample, b"P2 1 1 9 5x"),
];

// A file of two samples. Each front of it is refused.
const FILE: &[u8; 13] = b"P5\n2 1\n255\n\x0a\x23";

#[test]
fn texts_are_refused_by_their_first_fault(rt: HostRuntime) {
    for (why, text) in REFUSED {
        assert!(rt;
            read(rt.alloc(), text).err() == Some(*why),
            "{} of {text:?}",
            why.code()
        );
    }
    for end in 0..13usize {
        let why = match end {
            0 | 1 => PgmError::BadMagic,
            _ => PgmError::Truncated,
        };
        assert!(rt;
            read(rt.alloc(), &FILE[..end]).err() == Some(why),
            "{end} bytes"
        );
    }
}

// Numbers of pulls, and why that file is not read in so many. It comes in three pieces, and the fourth pull is its end.
const PULLS: &[(u64, Option<PgmError>)] = &[(4, None), (3, Some(PgmError::Device))];

// Whether the file is read in so many pulls, or refused for this reason.
fn is_read_within(alloc: Global, pulls: u64, why: Option<PgmError>) -> bool {
    let Ok(file) = FILE.to_vec(alloc) else {
        return false;
    };
    let mut source = MemorySource::new(file).in_pieces(5);
    match read_all_within(alloc, &mut source, pulls) {
        Ok(bytes) => why.is_none() && bytes.as_slice() == FILE.as_slice(),
        Err(error) => why == Some(error) && error.code() == "P11",
    }
}

#[test]
fn a_source_has_so_many_pulls_to_reach_its_end(rt: HostRuntime) {
    for (pulls, why) in PULLS {
        assert!(rt; is_read_within(rt.alloc(), *pulls, *why), "{pulls} pulls");
    }
}

// Reads an image from these bytes, and writes it to the sink.
fn carry(alloc: Global, text: Vec<u8>, sink: &mut MemorySink) -> Result<(), PgmError> {
    let image = read_from(alloc, &mut MemorySource::new(text))?;
    write_to(alloc, &image, sink)
}

// Whether the raw file of this header and raster is carried to a sink.
fn is_carried(alloc: Global, header: &[u8], raster: &[u8]) -> bool {
    let mut sink = MemorySink::new(alloc);
    match [header, raster].concat(alloc) {
        Ok(text) => {
            carry(alloc, text, &mut sink).is_ok()
                && sink.written().strip_prefix(header) == Some(raster)
        }
        Err(_) => false,
    }
}

#[test]
fn raw_files_are_carried(rt: HostRuntime) {
    assert!(rt; is_carried(rt.alloc(), b"P5\n1 1\n256\n", b"\x01\x00"));
    assert!(rt; is_carried(rt.alloc(), b"P5\n4097 1\n255\n", &[7; 4097]));
}
