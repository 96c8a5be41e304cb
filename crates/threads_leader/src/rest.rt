//! How long threads rest between two looks at a desk. No contract rests on it.
use crate::turn::Led;
use board::Bell;
use std::hint;
use std::sync::Wait;
use std::time::Duration;
use threads_loops::Found;

// A seat that finds another thread writing looks so often whether it may write itself, and then sleeps until something
// is published, for so many microseconds at most.
const LOOKS: u32 = 16;

const RING_LOOKS: u32 = 200;

const SEAT_SLEEP: u64 = 200;

// How many microseconds the flusher's thread sleeps where an image is copied, and where nothing waits: at first, and at
// most.
const COPY_PAUSE: u64 = 20;

const SHORTEST: u64 = 1_000;

const LONGEST: u64 = 8_000;

/// The rest of a seat whose record isn't safe yet. Answers how often it has looked, with this look, since it last wrote
/// something.
pub(crate) fn rest_seat<R: Wait>(
    rt: &R,
    published: &Bell,
    rings: u64,
    led: Led,
    looks: u32,
) -> u32 {
    match led {
        Led::Round(Found::More | Found::Records | Found::Image) => 0,
        Led::Round(Found::Nothing) | Led::Busy | Led::Over => {
            if looks < LOOKS {
                hint::spin_loop();
            } else if !published.look(rings, RING_LOOKS) {
                published.sleep(rt, rings, Duration::from_micros(SEAT_SLEEP));
            }
            looks.saturating_add(1)
        }
    }
}

/// The rest of the flusher's thread, beside seats that write themselves. It isn't woken where records are made. Answers
/// how many looks found nothing, with this one.
pub(crate) fn rest_helper<R: Wait>(rt: &R, bell: &Bell, rings: u64, led: Led, quiet: u32) -> u32 {
    match led {
        Led::Round(Found::More) => 0,
        Led::Round(Found::Image) => {
            bell.sleep(rt, rings, Duration::from_micros(COPY_PAUSE));
            0
        }
        Led::Round(Found::Records) | Led::Busy => {
            bell.sleep(rt, rings, Duration::from_micros(SHORTEST));
            0
        }
        Led::Round(Found::Nothing) | Led::Over => {
            let micros = SHORTEST.saturating_mul(u64::from(quiet).saturating_add(1));
            bell.sleep(rt, rings, Duration::from_micros(micros.min(LONGEST)));
            quiet.saturating_add(1)
        }
    }
}
