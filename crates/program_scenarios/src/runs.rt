// Runs of the program.
use crate::images::Images;
use anyhow::Result;
use flash_program::{Chosen, act, choose, report};
use std::alloc::Global;
use std::io::Cursor;

/// What a run wrote, and its status.
#[derive(Drop)]
struct Ran {
    out: Vec<u8>,
    err: Vec<u8>,
    status: u8,
}

/// Does what was chosen over an image.
fn act_on(alloc: Global, chosen: &Chosen, image: Option<&mut Cursor<Vec<u8>>>, input: &str) -> Ran {
    let mut lines = input.as_bytes();
    let mut out = Vec::new(alloc);
    let mut err = Vec::new(alloc);
    let ended = act(alloc, chosen, image, &mut lines, &mut out);
    let status = report(&mut err, ended);
    Ran { out, err, status }
}

/// The name of the image that is chosen.
fn image_of(chosen: &Chosen) -> Option<&str> {
    match chosen {
        Chosen::Memory => None,
        Chosen::Format { image, .. }
        | Chosen::Run { image }
        | Chosen::Check { image }
        | Chosen::Cut { image, .. } => Some(image.as_str()),
    }
}

/// The bytes of the image that is chosen, as its file is opened: emptied for a new volume.
fn bytes_of(
    rt: &HostRuntime,
    images: &mut Images,
    chosen: &Chosen,
    image: &str,
) -> Option<Vec<u8>> {
    let bytes = images.find(rt, image);
    match chosen {
        Chosen::Format { .. } => Some(Vec::new(rt.alloc())),
        _ => bytes,
    }
}

/// Does what was chosen over the image of its name.
fn perform(rt: &HostRuntime, images: &mut Images, chosen: &Chosen, input: &str) -> Result<Ran> {
    let alloc = rt.alloc();
    let Some(image) = image_of(chosen) else {
        return Ok(act_on(alloc, chosen, None, input));
    };
    let Some(bytes) = bytes_of(rt, images, chosen, image) else {
        return Ok(act_on(alloc, chosen, None, input));
    };
    let mut file = Cursor::new(bytes);
    let ran = act_on(alloc, chosen, Some(&mut file), input);
    images.put(alloc, image, file.into_inner())?;
    Ok(ran)
}

/// Reports a run of the program with these words.
pub(crate) fn run(
    rt: &HostRuntime,
    images: &mut Images,
    words: &[&str],
    input: &str,
) -> Result<()> {
    match choose(rt.alloc(), words) {
        Ok(chosen) => {
            let ran = perform(rt, images, &chosen, input)?;
            print!(rt;
                "{}{}",
                str::from_utf8(&ran.out)?,
                str::from_utf8(&ran.err)?
            )?;
            println!(rt; "status {}", ran.status)?;
        }
        Err(status) => println!(rt; "status {status}")?,
    }
    Ok(())
}
