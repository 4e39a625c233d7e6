ghost use Rattle.std.specs.Prelude.{◌≡◌, ◌<◌, ◌^◌, ◌++◌, length, replicate, OnOk, IfOk};
ghost use Rattle.image_model.specs.Image as model;
ghost use Rattle.image_model.specs.Image.{segment_bytes, image_bytes, ImageOf};
ghost use Rattle.image_file.specs.View.{segment_view, segment_views};

use crate::format::{has_permission, mark, permission_byte};
use crate::image::{Image, Segment};
use image_model::Format;
use std::alloc::{AllocError, Global};

fn put_zeros(out: &mut Vec<u8>, count: u32) -> Result<(), AllocError>
    ensures { OnOk result (out.new.items ≡ out.old.items ++ replicate count 0) }
{
    let end = out.len() + count as usize;
    out.resize(end, 0)
}

fn put_content(out: &mut Vec<u8>, segment: &Segment) -> Result<(), AllocError>
    ensures { OnOk result (out.new.items ≡ out.old.items ++ (segment_view segment.now).content) }
{
    out.extend_from_slice(&segment.bytes)?;
    put_zeros(out, segment.zeros)
}

fn put_segment(out: &mut Vec<u8>, format: Format, segment: &Segment) -> Result<(), AllocError>
    requires { length (segment_view segment.now).content < 2 ^ 32 }
    ensures { OnOk result (out.new.items ≡ out.old.items ++ segment_bytes format (segment_view segment.now)) }
{
    out.extend_from_slice(&segment.addr.to_le_bytes())?;
    out.push(permission_byte(format, segment.perm))?;
    out.extend_from_slice(&(segment.size() as u32).to_le_bytes())?;
    put_content(out, segment)
}

fn has_all_permissions(format: Format, segments: &[Segment]) -> bool
    ensures { result ≡ model.has_permissions format (segment_views segments.now) }
{
    segments
        .iter()
        .all(|segment| has_permission(format, segment.perm))
}

fn format_of(image: &Image) -> Format
    ensures { result ≡ model.format_of image.now }
{
    if has_all_permissions(Format::Dti1, image.segments()) {
        return Format::Dti1;
    }
    Format::Dti2
}

/// The spelling of the image in the format DTI1 where each permission is 0, 2, 5 or 7, and else in DTI2.
pub fn write_image(alloc: Global, image: &Image) -> Result<Vec<u8>, AllocError>
    ensures exact { IfOk result (λ v. v.items ≡ image_bytes image.now) }
    ensures spelled { IfOk result (λ v. ImageOf v.items image.now) }
{
    let segments = image.segments();
    let format = format_of(image);
    let mut out = Vec::new(alloc);
    out.extend_from_slice(&mark(format).to_le_bytes())?;
    out.extend_from_slice(&image.entry().to_le_bytes())?;
    out.extend_from_slice(&image.stack().to_le_bytes())?;
    out.extend_from_slice(&(segments.len() as u16).to_le_bytes())?;
    for segment in segments {
        put_segment(&mut out, format, segment)?;
    }
    Ok(out)
}
