// Runs of a host.
ghost use Rattle.std.specs.Prelude.{◌<◌};

use crate::host::{Host, PLACES, pair_of};
use online_index::{Saved, Stop};
use online_model::{Life, Note};
use record_values::Error;
use std::alloc::Global;

// Numbers that look random.
#[derive(Drop)]
struct Dice(u64);

impl Dice {
    fn roll(&mut self, below: u64) -> u64
        requires { 0 < below }
        ensures { result < below }
    {
        self.0 = self
            .0
            .wrapping_mul(6_364_136_223_846_793_005)
            .wrapping_add(1_442_695_040_888_963_407);
        (self.0 >> 33) % below
    }
}

// Some changes: a third is taken back again.
fn changes(host: &mut Host<Global>, dice: &mut Dice, count: u32) -> Result<(), Error> {
    for _ in 0..count {
        let place = dice.roll(PLACES as u64) as u32;
        let old = host.row(place);
        let new = match dice.roll(4) {
            0 => None,
            _ => Some(pair_of(place, dice.roll(50) as u32)?),
        };
        host.change(place, new.as_ref())?;
        if dice.roll(3) == 0 {
            host.change(place, old.as_ref())?;
        }
    }
    host.clean()
}

// A checkpoint in pieces, with changes between them, and a stop after it.
fn stop(alloc: Global, host: &mut Host<Global>, dice: &mut Dice) -> Result<(), Error> {
    let since = host.log.len();
    let mut saved = Vec::new(alloc);
    saved.push(Note::LifeIs(host.index.life()))?;
    let mut above = None;
    for _ in 0..200 {
        match host.index.save(above, 20, &mut saved)? {
            Saved::GoOn(next) => above = next,
            Saved::All => break,
        }
        changes(host, dice, 3)?;
        host.build(9)?;
    }
    host.stop(&saved, since)
}

// A run with a stop each so many turns; how many differences it ends with, and whether the index is complete.
fn run(alloc: Global, seed: u64, turns_per_stop: u32) -> Result<(usize, bool), Error>
    requires { 0 < turns_per_stop }
{
    let mut host = Host::new(alloc)?;
    let mut dice = Dice(seed);
    for turn in 1..40 {
        changes(&mut host, &mut dice, 4)?;
        host.build(13)?;
        if turn % turns_per_stop == 0 {
            stop(alloc, &mut host, &mut dice)?;
        }
    }
    for _ in 0..100 {
        if host.build(50)? == Stop::Complete {
            break;
        }
    }
    changes(&mut host, &mut dice, 40)?;
    Ok((host.differences(), host.index.life() == Life::Complete))
}

#[test]
fn each_run_ends_exact(rt: HostRuntime) -> Result<(), Error> {
    for (seed, turns_per_stop) in [(1, 3), (2, 11), (3, 1000)] {
        let (differences, is_complete) = run(rt.alloc(), seed, turns_per_stop)?;
        assert!(rt; is_complete, "seed {seed}");
        assert_eq!(rt; differences, 0, "seed {seed}");
    }
    Ok(())
}
