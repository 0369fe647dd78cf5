// Questions on images, and on the help.
use crate::images::Images;
use anyhow::{Result, anyhow};
use flash_program::parse;

/// How many bytes an image has.
fn length(rt: &HostRuntime, images: &mut Images, image: &str) -> Result<usize> {
    let bytes = images.take(rt, image)?;
    let length = bytes.len();
    images.put(rt.alloc(), image, bytes)?;
    Ok(length)
}

/// Whether two images have the same bytes.
fn are_same(rt: &HostRuntime, images: &mut Images, image: &str, other: &str) -> Result<bool> {
    let bytes = images.take(rt, image)?;
    let others = images.take(rt, other)?;
    let same = bytes.as_slice() == others.as_slice();
    images.put(rt.alloc(), image, bytes)?;
    images.put(rt.alloc(), other, others)?;
    Ok(same)
}

/// Whether what is written on standard output in place of a run, as the help of a subcommand, has this text in it.
fn is_shown(rt: &HostRuntime, words: &[&str], text: &str) -> Result<bool> {
    let Err(written) = parse(rt.alloc(), words) else {
        return Ok(false);
    };
    let is_help = !written.use_stderr();
    let written = format!(in rt.alloc(); "{written}")?;
    Ok(is_help && written.contains(text))
}

/// Reports an answer.
fn tell(rt: &HostRuntime, holds: bool) -> Result<()> {
    println!(rt; "{}", if holds { "yes" } else { "no" })?;
    Ok(())
}

/// Answers what the words ask of images, or of what the program writes in place of a run.
pub(crate) fn answer(
    rt: &HostRuntime,
    images: &mut Images,
    words: &[&str],
    text: &str,
) -> Result<()> {
    match words {
        ["length", image] => println!(rt; "{}", length(rt, images, image)?)?,
        ["same", image, other] => tell(rt, are_same(rt, images, image, other)?)?,
        ["shown", words @ ..] => tell(rt, is_shown(rt, words, text.trim_end())?)?,
        _ => return Err(anyhow!("length, same or shown is wanted")),
    }
    Ok(())
}
