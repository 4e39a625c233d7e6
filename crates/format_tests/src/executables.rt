//! Executable files: each need at its place, and loads at every edge.

use elf_image::{ElfFault, ElfKind, read_elf};
use image_file::{Image, Segment};
use std::alloc::{AllocError, Global};
use std::process::Abort;
use std::test::*;

/// A file of one load: at 0x1054 the program that returns 7. Its parts are those of the ELF specification, as a linker writes them.
const RETURN_SEVEN: [u8; 96] = [
    0x7f, 0x45, 0x4c, 0x46, 1, 1, 1, 0, 0, 0, 0, 0, 0, 0, 0, 0, // e_ident
    2, 0, 0xf3, 0, 1, 0, 0, 0, 0x54, 0x10, 0, 0, 52, 0, 0, 0, // e_type to e_phoff
    0, 0, 0, 0, 0, 0, 0, 0, 52, 0, 32, 0, 1, 0, 0, 0, 0, 0, 0, 0, // e_shoff to e_shstrndx
    1, 0, 0, 0, 84, 0, 0, 0, 0x54, 0x10, 0, 0, 0x54, 0x10, 0, 0, // p_type to p_paddr
    12, 0, 0, 0, 12, 0, 0, 0, 5, 0, 0, 0, 0, 0x10, 0, 0, // p_filesz to p_align
    0x93, 0x08, 0x30, 0, 0x13, 0x05, 0x70, 0, 0x73, 0, 0, 0,
];

/// A program header: p_type, p_offset, p_vaddr, p_filesz, p_memsz and p_flags.
type Header = [u32; 6];

// A file of these program headers, whose bytes are those of the file RETURN_SEVEN but for the headers.
fn file_of(alloc: Global, count: u16, headers: &[Header]) -> Result<Vec<u8>, AllocError> {
    let mut file = Vec::new(alloc);
    file.extend_from_slice(&RETURN_SEVEN[..44])?;
    file.extend_from_slice(&count.to_le_bytes())?;
    file.extend_from_slice(&RETURN_SEVEN[46..52])?;
    for header in headers {
        let [kind, offset, address, file_size, size, flags] = *header;
        for field in [kind, offset, address, 0x77, file_size, size, flags, 3] {
            file.extend_from_slice(&field.to_le_bytes())?;
        }
    }
    Ok(file)
}

fn is_refused(rt: &impl Abort, alloc: Global, file: &[u8], kind: ElfKind, at: u64) {
    match read_elf(alloc, file) {
        Err(ElfFault::Bad(error)) => assert_eq!(rt; (error.kind, error.at), (kind, at)),
        Err(ElfFault::Memory) => panic!(rt; "no memory"),
        Ok(_) => panic!(rt; "{kind} at {at} is taken"),
    }
}

/// A segment that is wanted: its first address, its permission, how many pages it has.
type Pages = (u32, u8, usize);

fn image_of(rt: &impl Abort, alloc: Global, file: &[u8]) -> Image {
    match read_elf(alloc, file) {
        Ok(image) => image,
        Err(ElfFault::Bad(error)) => panic!(rt; "{error}"),
        Err(ElfFault::Memory) => panic!(rt; "no memory"),
    }
}

fn is_segment(rt: &impl Abort, segment: &Segment, want: &Pages) {
    let length = segment.size() as usize;
    assert_eq!(rt; (segment.addr, segment.perm, length / 4096), *want);
    assert_eq!(rt; length % 4096, 0);
}

// The segments of a file are these, and then the stack.
fn has_segments(rt: &impl Abort, alloc: Global, file: &[u8], want: &[Pages]) {
    let image = image_of(rt, alloc, file);
    let Some((stack, segments)) = image.segments().split_last() else {
        panic!(rt; "no stack")
    };
    is_segment(rt, stack, &(0xFFFF_0000, 3, 16));
    assert_eq!(rt; segments.len(), want.len());
    for (segment, pages) in segments.iter().zip(want) {
        is_segment(rt, segment, pages);
    }
}

// Writes a little endian number over some bytes of a file.
fn patch(file: &mut [u8], at: usize, number: &[u8]) {
    for (place, byte) in file.iter_mut().skip(at).zip(number) {
        *place = *byte;
    }
}

/// What makes a file of two loads fail: these bytes at this offset; and the fault.
type Flaw = (usize, &'static [u8], ElfKind, u64);

/// A flaw of each need, in the order in which they are tried.
const FLAWS: [Flaw; 17] = [
    (0, &[0x7e], ElfKind::Magic, 0),
    (4, &[2], ElfKind::Class, 4),
    (5, &[2], ElfKind::Encoding, 5),
    (6, &[0], ElfKind::Version, 6),
    (16, &[3], ElfKind::Filetype, 16),
    (18, &[3], ElfKind::Machine, 18),
    (20, &[0], ElfKind::Version, 20),
    (36, &[4], ElfKind::Flags, 36),
    (42, &[31], ElfKind::Entries, 42),
    (44, &[65], ElfKind::Count, 44),
    (28, &[53], ElfKind::Truncated, 28),
    (84, &[3], ElfKind::Dynamic, 84),
    (92, &[0x0b, 0x10, 0, 0], ElfKind::Order, 92),
    (88, &[105], ElfKind::Truncated, 88),
    (104, &[11, 0, 0, 0], ElfKind::Size, 100),
    (92, &[0xff, 0xff, 0xfe, 0xff], ElfKind::Range, 104),
    (104, &[0xf5, 0xff, 0xff, 0], ElfKind::TooBig, 104),
];

/// The program headers of the file that has the flaws.
const TWO: [Header; 2] = [[1, 104, 0x1000, 12, 12, 5], [1, 104, 0x3000, 12, 0x2000, 6]];

#[test]
fn each_need_has_its_place(rt: HostRuntime) -> Result<(), Fail> {
    let alloc = rt.alloc();
    let whole = file_of(alloc, 2, &TWO)?;
    has_segments(&rt, alloc, &whole, &[(0x1000, 5, 1), (0x3000, 3, 2)]);
    for (at, bytes, kind, place) in FLAWS {
        let mut file = whole.clone()?;
        patch(&mut file, at, bytes);
        is_refused(&rt, alloc, &file, kind, place);
    }
    Ok(())
}

// Where two needs in a row are not met, the first is told.
#[test]
fn the_first_of_two_neighbours_is_told(rt: HostRuntime) -> Result<(), Fail> {
    let alloc = rt.alloc();
    let whole = file_of(alloc, 2, &TWO)?;
    for pair in FLAWS.windows(2) {
        let [(at, bytes, kind, place), (next, others, _, _)] = *pair else {
            panic!(&rt; "no pair")
        };
        let mut file = whole.clone()?;
        patch(&mut file, next, others);
        patch(&mut file, at, bytes);
        is_refused(&rt, alloc, &file, kind, place);
    }
    let mut short = RETURN_SEVEN;
    short[0] = 0;
    is_refused(&rt, alloc, &short[..51], ElfKind::Truncated, 0);
    Ok(())
}

#[test]
fn each_truncation_is_refused(rt: HostRuntime) -> Result<(), Fail> {
    let alloc = rt.alloc();
    for end in 0..96 {
        let place = match end {
            0..52 => 0,
            52..84 => 28,
            _ => 56,
        };
        is_refused(&rt, alloc, &RETURN_SEVEN[..end], ElfKind::Truncated, place);
    }
    let image = image_of(&rt, alloc, &RETURN_SEVEN);
    assert_eq!(&rt; (image.entry(), image.stack()), (0x1054, 0xFFFF_FFF0));
    has_segments(&rt, alloc, &RETURN_SEVEN, &[(0x1000, 5, 1)]);
    let [code, _] = image.segments() else {
        panic!(&rt; "two segments")
    };
    let want = [0, 0x93, 0x08, 0x30, 0, 0x13, 0x05, 0x70, 0, 0x73, 0, 0, 0];
    assert_eq!(&rt; code.bytes.get(0x53..), Some(want.as_slice()));
    assert_eq!(&rt; code.zeros, 0xFA0);
    Ok(())
}

// The file of these program headers has these segments before the stack.
fn one_of_headers<R: AllocGlobal + Abort>(
    rt: &R,
    count: u16,
    headers: &[Header],
    want: &[Pages],
) -> Result<(), AllocError> {
    let file = file_of(rt.alloc(), count, headers)?;
    has_segments(rt, rt.alloc(), &file, want);
    Ok(())
}

// The file of these program headers is refused.
fn one_of_faults<R: AllocGlobal + Abort>(
    rt: &R,
    count: u16,
    headers: &[Header],
    kind: ElfKind,
    at: u64,
) -> Result<(), AllocError> {
    let file = file_of(rt.alloc(), count, headers)?;
    is_refused(rt, rt.alloc(), &file, kind, at);
    Ok(())
}

#[test]
fn loads_at_every_edge_are_taken(rt: HostRuntime) -> Result<(), Fail> {
    // No load; a load of no memory, wherever it stands; one of no bytes of the file, past the file's end.
    one_of_headers(&rt, 0, &[], &[])?;
    one_of_headers(&rt, 1, &[[1, 9, 0xFFFF_FFFF, 9, 0, 7]], &[])?;
    one_of_headers(
        &rt,
        1,
        &[[1, 0xFFFF_FFFF, 0x1FFF, 0, 2, 0]],
        &[(0x1000, 0, 2)],
    )?;
    // Two loads of one page, which has the permissions of both; and a page that comes to the permission of the one before it.
    let two = [[1, 0, 0x1000, 4, 0x801, 4], [1, 0, 0x1801, 4, 0x1000, 2]];
    one_of_headers(&rt, 2, &two, &[(0x1000, 3, 1), (0x2000, 2, 1)])?;
    let three = [
        [1, 0, 0x1000, 0, 9, 6],
        [1, 0, 0x2000, 0, 9, 4],
        [1, 0, 0x2009, 0, 9, 2],
    ];
    one_of_headers(&rt, 3, &three, &[(0x1000, 3, 2)])?;
    // Two runs of one permission that do not adjoin; all memory that there is, which ends where the stack begins.
    let apart = [[1, 0, 0x1000, 0, 9, 1], [1, 0, 0x3000, 0, 9, 1]];
    one_of_headers(&rt, 2, &apart, &[(0x1000, 4, 1), (0x3000, 4, 1)])?;
    one_of_headers(
        &rt,
        1,
        &[[1, 0, 0xFEFF_0000, 0, 0x100_0000, 4]],
        &[(0xFEFF_0000, 1, 4096)],
    )
    .map_err(Fail::from)
}

#[test]
fn loads_past_an_edge_are_refused(rt: HostRuntime) -> Result<(), Fail> {
    // One byte of memory too many, alone and with the others; an end one above the stack's first address; sums past 2^32.
    one_of_faults(
        &rt,
        1,
        &[[1, 0, 0x1000, 0, 0x100_0001, 4]],
        ElfKind::TooBig,
        72,
    )?;
    let huge = [
        [1, 0, 0x1000, 0, 0x100_0000, 4],
        [1, 0, 0x200_0000, 0, 0xF000_0000, 4],
    ];
    one_of_faults(&rt, 2, &huge, ElfKind::TooBig, 104)?;
    one_of_faults(&rt, 1, &[[1, 0, 0xFFFE_FFFF, 0, 2, 4]], ElfKind::Range, 72)?;
    one_of_faults(&rt, 1, &[[1, 0, 0xFFFF_FFFF, 0, 2, 4]], ElfKind::Range, 72)?;
    one_of_faults(
        &rt,
        1,
        &[[1, 0xFFFF_FFFF, 0x1000, 2, 2, 4]],
        ElfKind::Truncated,
        56,
    )?;
    // Loads that do not ascend; a dynamic linker's headers; fewer headers than there are said to be.
    let down = [[1, 0, 0x3000, 0, 9, 4], [1, 0, 0x1000, 0, 9, 4]];
    one_of_faults(&rt, 2, &down, ElfKind::Order, 92)?;
    one_of_faults(
        &rt,
        2,
        &[[4, 0, 0, 0, 0, 0], [2, 0, 0, 0, 0, 0]],
        ElfKind::Dynamic,
        84,
    )?;
    one_of_faults(&rt, 2, &down[..1], ElfKind::Truncated, 28).map_err(Fail::from)
}

// Some loads, each from the middle of a page to the middle of the next but one, that may be read or written in turn.
fn staircase(alloc: Global, count: u32) -> Result<Vec<Header>, AllocError> {
    let mut headers = Vec::new(alloc);
    for step in 0..count.min(100) {
        let flags = if step % 2 == 0 { 4 } else { 2 };
        headers.push([1, 0, 0x800 + 0x2000 * step, 0, 0x2000, flags])?;
    }
    Ok(headers)
}

#[test]
fn loads_and_headers_are_counted(rt: HostRuntime) -> Result<(), Fail> {
    let alloc = rt.alloc();
    let stairs = staircase(alloc, 32)?;
    let file = file_of(alloc, 32, &stairs)?;
    let image = image_of(&rt, alloc, &file);
    assert_eq!(&rt; image.segments().len(), 64);
    let one_more = staircase(alloc, 33)?;
    one_of_faults(&rt, 33, &one_more, ElfKind::Count, 52 + 32 * 32)?;
    let notes = [[4, 0, 0, 0, 9, 0]; 65];
    one_of_headers(&rt, 64, &notes[..64], &[])?;
    one_of_faults(&rt, 65, &notes, ElfKind::Count, 44).map_err(Fail::from)
}

// A load that ends where the stack begins and has its permission is one segment with it; a fault has its text.
#[test]
fn a_load_adjoins_the_stack(rt: HostRuntime) -> Result<(), Fail> {
    let alloc = rt.alloc();
    let file = file_of(alloc, 1, &[[1, 0, 0xFFFE_F800, 4, 0x800, 6]])?;
    let image = image_of(&rt, alloc, &file);
    let [all] = image.segments() else {
        panic!(&rt; "segments")
    };
    is_segment(&rt, all, &(0xFFFE_F000, 3, 17));
    assert_eq!(&rt;
        all.bytes.get(0x7FF..),
        Some([0, 0x7f, 0x45, 0x4c, 0x46].as_slice())
    );
    let mut file = RETURN_SEVEN;
    file[18] = 3;
    match read_elf(alloc, &file) {
        Err(fault) => {
            let text = format!(in alloc; "{fault}")?;
            assert_eq!(&rt; text.as_str(), "machine at 18");
        }
        Ok(_) => panic!(&rt; "taken"),
    }
    Ok(())
}
