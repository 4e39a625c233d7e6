ghost use Rattle.std.specs.Prelude.{◌≡◌, ◌≤◌, length, vec_len};
ghost use Rattle.image_model.specs.Image.{AreSegments, IsImage};
ghost use Rattle.image_file.specs.View.{segment_view};

use std::marker::Model;

/// Bytes that stand from an address on, and zeros behind them. Each page that they touch gets the permission.
#[derive(Debug, Drop)]
pub struct Segment {
    /// The address of the first byte.
    pub addr: u32,
    /// From 0 to 7: 1 allows reading, 2 writing, 4 executing.
    pub perm: u8,
    /// The bytes, up to the zeros.
    pub bytes: Vec<u8>,
    /// How many zeros stand behind the bytes. Both are together at least one byte, and fewer than 2^32.
    pub zeros: u32,
}

impl Segment {
    /// How many bytes it has, the zeros too.
    pub fn size(&self) -> u64
        ensures { result ≡ length (segment_view self.now).content }
    {
        self.bytes.len() as u64 + u64::from(self.zeros)
    }
}

/// An image of a root's memory: where the root begins, its stack pointer, and at most 64 segments.
/// Each segment begins in a page above the last page of the one before.
#[derive(Debug, Drop)]
pub struct Image {
    pub(crate) entry: u32,
    pub(crate) stack: u32,
    pub(crate) parts: Vec<Segment>,
}

impl Model for Image {
    ghost use Rattle.image_model.specs.Image as model;
    ghost use Rattle.image_file.specs.View.{segment_views};

    ghost Value = { model.Image };

    ghost coded = { model.coded_image };

    ghost view = { λ a. record { entry = a.entry; stack = a.stack; segments = segment_views a.parts.items } };

    ghost invariant = { λ a. model.IsImage (record { entry = a.entry; stack = a.stack; segments = segment_views a.parts.items }) };
}

impl Image {
    ghost use Rattle.image_file.specs.View.{segment_views};

    /// The image of these parts.
    pub fn new(entry: u32, stack: u32, segments: Vec<Segment>) -> Image
        requires count { vec_len segments ≤ 64 }
        requires sound { AreSegments 0 (segment_views segments.items) }
        ensures { result ≡ record { entry = entry; stack = stack; segments = segment_views segments.items } }
    {
        Image {
            entry,
            stack,
            parts: segments,
        }
    }

    /// Where the root begins.
    pub fn entry(&self) -> u32
        ensures { result ≡ self.now.entry }
    {
        self.entry
    }

    /// The root's stack pointer.
    pub fn stack(&self) -> u32
        ensures { result ≡ self.now.stack }
    {
        self.stack
    }

    /// The segments, each above the one before.
    pub fn segments(&self) -> &[Segment]
        ensures all { segment_views result.now ≡ self.now.segments }
        ensures sound { IsImage self.now }
    {
        &self.parts
    }
}
