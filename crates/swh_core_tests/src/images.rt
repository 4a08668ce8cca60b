//! Bytes that a crash may leave of a file, drawn at random, and such as it may not leave.
use crate::drawing::Draws;
use std::alloc::Global;
use swh_base::Memory;
use swh_naive_core::ByteFile;

fn draw_length(draws: &mut Draws, file: &ByteFile) -> usize {
    let least = file.safe.len();
    let more = file.longest.saturating_sub(least);
    match draws.below(16) {
        0 => least.saturating_sub(1),
        1 => file.longest.saturating_add(1),
        2 | 3 | 4 | 5 => least,
        6 | 7 | 8 => least.saturating_add(draws.below(more.saturating_add(1))),
        _ => file.longest,
    }
}

/// How a byte is drawn where any byte may be left.
#[derive(Clone, Copy)]
enum Style {
    Written,
    Before,
    Either,
    One,
    Any,
}

fn draw_style(draws: &mut Draws) -> Style {
    match draws.below(5) {
        0 => Style::Written,
        1 => Style::Before,
        2 => Style::Either,
        3 => Style::One,
        _ => Style::Any,
    }
}

fn draw_byte(draws: &mut Draws, file: &ByteFile, k: usize, style: Style) -> u8 {
    let before = file.safe.get(k).copied();
    let is_firm = before.is_some() && file.is_loose.get(k).copied() != Some(true);
    let before = before.unwrap_or(0);
    let written = file.bytes.get(k).copied().unwrap_or(0);
    if is_firm {
        return before;
    }
    match style {
        Style::Written => written,
        Style::Before => before,
        Style::Either => { if draws.below(2) == 0 { before } else { written } }
        Style::One => 1,
        Style::Any => u8::try_from(draws.below(256)).unwrap_or(0),
    }
}

/// Changes one byte.
fn spoil(draws: &mut Draws, image: &mut Vec<u8>) {
    let place = draws.below(image.len());
    if let Some(byte) = image.get_mut(place) {
        *byte = byte.wrapping_add(1);
    }
}

pub fn draw_image(alloc: Global, draws: &mut Draws, file: &ByteFile) -> Result<Vec<u8>, Memory> {
    let length = draw_length(draws, file);
    let style = draw_style(draws);
    let mut image = Vec::new(alloc);
    for k in 0..length {
        image.push(draw_byte(draws, file, k, style))?;
    }
    if draws.below(12) == 0 {
        spoil(draws, &mut image);
    }
    Ok(image)
}
