// A burst done by the library and, on copies of image and desk, as the single steps that it stands for; what they answer and leave is compared.
use crate::calls::{Got, Wrong, told, wrong_unless};
use trial_events::event::{DESK_BYTES, IMAGE_BYTES, MOST_BURST};
use trial_judge::fields::is_finished;

const BAD_COUNT: usize = 17;

// So many steps at most: they end when the copy finishes, or when one is refused.
fn steps(count: usize, store: &[u8], image: &mut [u8], desk: &mut [u8]) -> Got {
    for k in 0..count {
        if let Err(number) = told(watch::step(store, &mut *image, &mut *desk)) {
            return if k == 0 { Err(number) } else { Ok(k) };
        }
        if is_finished(image) {
            return Ok(k + 1);
        }
    }
    Ok(count)
}

fn singly(count: usize, store: &[u8], image: &mut [u8], desk: &mut [u8]) -> Got {
    if count == 0 || MOST_BURST < count {
        return Err(BAD_COUNT);
    }
    steps(count, store, image, desk)
}

// other and notes are copies of image and desk. No struct for two buffers: the library takes them one by one, with the store.
pub fn compare(
    count: usize,
    store: &[u8],
    image: &mut [u8],
    desk: &mut [u8],
    other: &mut [u8],
    notes: &mut [u8],
) -> Result<Got, Wrong> {
    let got = told(watch::burst(store, &mut *image, &mut *desk, count));
    let single = singly(count, store, &mut *other, &mut *notes);
    wrong_unless(got == single, Wrong::Answer)?;
    wrong_unless(*image == *other, Wrong::Image)?;
    wrong_unless(*desk == *notes, Wrong::Desk)?;
    Ok(got)
}

pub fn do_burst(
    count: usize,
    store: &[u8],
    image: &mut [u8],
    desk: &mut [u8],
) -> Result<Got, Wrong> {
    let i = image.len();
    let d = desk.len();
    // More than the copies have room for: no list has it.
    if IMAGE_BYTES < i || DESK_BYTES < d {
        return Err(Wrong::Image);
    }
    let mut other = [0u8; IMAGE_BYTES];
    let mut notes = [0u8; DESK_BYTES];
    other[..i].copy_from_slice(image);
    notes[..d].copy_from_slice(desk);
    compare(count, store, image, desk, &mut other[..i], &mut notes[..d])
}
