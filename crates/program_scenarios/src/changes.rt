// Changes of images by hand.
use crate::images::Images;
use anyhow::{Context, Result, anyhow};

/// Gives an image another name besides, in place of what may have had it.
fn copy(rt: &HostRuntime, images: &mut Images, image: &str, name: &str) -> Result<()> {
    let alloc = rt.alloc();
    let bytes = images.take(rt, image)?;
    let copied = Vec::from_slice(alloc, &bytes)?;
    images.put(alloc, image, bytes)?;
    let _before = images.find(rt, name);
    images.put(alloc, name, copied)?;
    Ok(())
}

/// Cuts an image to so many bytes, or lets it grow to them by zero bytes.
fn set_length(rt: &HostRuntime, images: &mut Images, image: &str, length: usize) -> Result<()> {
    let mut bytes = images.take(rt, image)?;
    bytes.resize(length, 0)?;
    images.put(rt.alloc(), image, bytes)?;
    Ok(())
}

/// Sets one byte of an image.
fn set_byte(
    rt: &HostRuntime,
    images: &mut Images,
    image: &str,
    place: usize,
    value: u8,
) -> Result<()> {
    let mut bytes = images.take(rt, image)?;
    match bytes.get_mut(place) {
        Some(byte) => *byte = value,
        None => return Err(anyhow!("the image {image} has no byte {place}")),
    }
    images.put(rt.alloc(), image, bytes)?;
    Ok(())
}

/// Changes an image as the words say.
pub(crate) fn change(rt: &HostRuntime, images: &mut Images, words: &[&str]) -> Result<()> {
    match words {
        ["copy", image, name] => copy(rt, images, image, name),
        ["length", image, length] => {
            set_length(rt, images, image, length.parse().context("the length")?)
        }
        ["byte", image, place, value] => {
            let place = place.parse().context("the place")?;
            set_byte(
                rt,
                images,
                image,
                place,
                value.parse().context("the value")?,
            )
        }
        _ => Err(anyhow!("copy, length or byte is wanted")),
    }
}
