//! What no clause says: worked paths, which calls fail, and that each call succeeds where there is
//! memory.
ghost use Rattle.wdt_units.specs.Lanes.{Below};

use crate::{
    Failed, Input, Lane, LaneSet, Machine, MemInput, MemSink, Name, NameFail, Sink, number_of,
};
use std::test::Fail;

#[test]
fn names(rt: HostRuntime) -> Result<(), Fail> {
    let alloc = rt.alloc();
    for (path, want) in [
        (b"a/b.c".as_slice(), Ok(false)),
        (b".wlog", Ok(true)),
        (b".wlog.new", Ok(true)),
        (b"a/.wlog", Ok(false)),
        (b"", Err(NameFail::Bad)),
        (b"a//b", Err(NameFail::Bad)),
        (b"../a", Err(NameFail::Bad)),
    ] {
        let got = match Name::read(alloc, path) {
            Ok(name) => Ok(name.copy()?.reserved()),
            Err(fail) => Err(fail),
        };
        assert_eq!(rt; got, want, "{path:?}");
    }
    Ok(())
}

#[test]
fn numbers(rt: HostRuntime) {
    for (word, want) in [
        ("0", Some(0)),
        ("40", Some(40)),
        ("18446744073709551615", Some(u64::MAX)),
        ("18446744073709551616", None),
        ("", None),
        ("04", None),
        ("+4", None),
        ("4 ", None),
    ] {
        assert_eq!(rt; number_of(word), want, "{word:?}");
    }
}

#[test]
fn lanes_of_a_set(rt: HostRuntime) -> Result<(), Fail> {
    let set = LaneSet::only(Lane(9)).with(LaneSet::only(Lane(2)));
    let lanes: Vec<u8> = set.lanes().map(|lane| lane.0).collect(rt.alloc())?;
    assert_eq!(rt; lanes.as_slice(), [2, 9].as_slice());
    Ok(())
}

#[test]
fn reads_and_writes(rt: HostRuntime) -> Result<(), Fail> {
    let alloc = rt.alloc();
    let mut input = MemInput::of(
        Vec::from_slice(alloc, b"hello")?,
        Vec::from_slice(alloc, &[2])?,
    );
    let mut sink = MemSink::of(alloc, Vec::from_slice(alloc, &[1, 3])?);
    let mut piece = [0; 3];
    for (read, put) in [
        (Ok(3), Err(Failed)),
        (Err(Failed), Ok(())),
        (Ok(2), Err(Failed)),
        (Ok(0), Ok(())),
    ] {
        assert_eq!(rt; input.read(&mut piece), read);
        assert_eq!(rt; sink.put(&piece), put);
    }
    assert_eq!(rt; sink.bytes(), b"hellol".as_slice());
    Ok(())
}

// A machine that writes down its turns.
#[derive(Drop)]
struct Recorder {
    turns: Vec<(u8, u64)>,
}

impl Machine for Recorder {
    ghost use Rattle.std.specs.Prelude.{◌≡◌, ◌<◌, [], ◌∷◌, length, Some, None};
    ghost use Rattle.wdt_units.specs.Lanes.{few_loose};

    type Put = u64;

    type Act = u64;

    type Entry = (u8, u64);

    type Stand = ();

    // It takes numbers below 10.
    ghost fits = { λ put. put < 10 };

    ghost lanes = { λ _. None };

    ghost history = { λ s. s.turns.items };

    ghost lane_of = { λ e. Some e.0 };

    ghost stand = { λ _ _. tt };

    ghost legal = { λ _. Unit {0} };

    ghost turned = { λ lane put h _ act more _. (more ≡ (lane, put) ∷ []) × (act ≡ length h) };

    ghost counted = { λ s. length s.turns.items };

    ghost one_loose = { λ h _. few_loose (λ e. e.0) h };

    fn turn(&mut self, lane: Lane, put: u64) -> Result<u64, u64> {
        let at = self.turns.len();
        match self.turns.push((lane.0, put)) {
            Ok(()) => Ok(at as u64),
            Err(_) => Err(put),
        }
    }

    fn count(&self) -> u64 {
        self.turns.len() as u64
    }
}

// Makes one turn of each of two lanes, and answers the acts.
fn two_turns<M: Machine<Put = u64, Act = u64>>(machine: &mut M) -> (u64, u64)
    requires lanes { Below (M.lanes machine.old) 1 }
    requires fits { M.fits 7 × M.fits 9 }
{
    let first = machine.turn(Lane(1), 7).unwrap_or(0);
    let second = machine.turn(Lane(0), 9).unwrap_or(0);
    (first, second)
}

#[test]
fn a_machine_takes_turns(rt: HostRuntime) -> Result<(), Fail> {
    let mut recorder = Recorder {
        turns: Vec::new(rt.alloc()),
    };
    assert_eq!(rt; two_turns(&mut recorder), (0, 1));
    assert_eq!(rt; recorder.count(), 2);
    Ok(())
}
