// Numbers, plans and records out of a call's bytes, one after the other, high byte first; 0 past their end.
ghost use Rattle.std.specs.Prelude.{◌+◌, ◌≤◌, length};

use plan::Plan;
use quorum::{Bound, BoundKind};
use terminal::{Note, Record, State};
use tolerance::Drawing;

// What is left of a call.
#[derive(Drop)]
pub(crate) struct Call<'a> {
    rest: &'a [u8],
}

impl<'a> Call<'a> {
    pub(crate) fn of(body: &'a [u8]) -> Call<'a> {
        Call { rest: body }
    }

    pub(crate) fn byte(&mut self) -> u8 {
        self.rest.split_off_first().copied().unwrap_or(0)
    }

    pub(crate) fn pair(&mut self) -> u16 {
        u16::from_be_bytes([self.byte(), self.byte()])
    }

    pub(crate) fn quad(&mut self) -> u32 {
        u32::from_be_bytes([self.byte(), self.byte(), self.byte(), self.byte()])
    }

    // A number of terminals or of groups, in one byte.
    pub(crate) fn count(&mut self) -> usize {
        usize::from(self.byte())
    }

    // A value at each place of the list.
    pub(crate) fn fill<T: Copy, F: Fn(&mut Call<'a>) -> T>(&mut self, list: &mut [T], read: F)
        requires { F.IsAlwaysCallable read }
    {
        for place in list {
            *place = read(self);
        }
    }

    // How many places of the list are given, and these; the others stay.
    fn listed<T: Copy, F: Fn(&mut Call<'a>) -> T>(&mut self, list: &mut [T], read: F)
        requires { F.IsAlwaysCallable read }
    {
        let count = self.count().min(list.len());
        self.fill(&mut list[..count], read)
    }

    // What is read of the next bytes, at most so many: past these it is 0, as past the call's end.
    fn within<T, F: FnOnce(&mut Call<'a>) -> T>(&mut self, most: usize, read: F) -> T
        requires { F.IsAlwaysCallable read }
        ensures { length self.old.rest.now ≤ length self.new.rest.now + most }
    {
        let size = self.rest.len().min(most);
        let mut part = Call::of(&self.rest[..size]);
        let made = read(&mut part);
        let taken = size.saturating_sub(part.rest.len());
        self.rest = &self.rest[taken..];
        made
    }

    // 0 for f, else groups; f or their count; the groups, and 0 at the other places: at most 67 bytes.
    pub(crate) fn bound(&mut self) -> Bound
        ensures { length self.old.rest.now ≤ length self.new.rest.now + 67 }
    {
        self.within(67, |call| {
            let grouped = call.byte() != 0;
            let number = call.count();
            let mut groups = [0u32; 16];
            call.listed(&mut groups, Call::quad);
            let kind = if grouped {
                BoundKind::Groups(number)
            } else {
                BoundKind::Most(number)
            };
            Bound { kind, groups }
        })
    }

    fn rows(&mut self) -> [u32; 20] {
        std::array::from_fn(|_| self.quad())
    }

    // n and source in a byte each, then the rows.
    pub(crate) fn drawing(&mut self) -> Drawing {
        Drawing {
            n: self.count(),
            source: self.count(),
            rows: self.rows(),
        }
    }

    // n and source in a byte each, the bound, then the rows: at most 149 bytes.
    pub(crate) fn plan(&mut self) -> Plan
        ensures { length self.old.rest.now ≤ length self.new.rest.now + 149 }
    {
        self.within(
            149,
            |call| Plan {
                n: call.count(),
                source: call.count(),
                bound: call.bound(),
                rows: call.rows(),
            },
        )
    }

    // 0 for waiting, else 1; the round and the notice, which are there when it is waiting too.
    fn state(&mut self) -> State {
        let waiting = self.byte() == 0;
        let round = self.byte();
        let notice = self.quad();
        if waiting {
            State::Waiting
        } else {
            State::Taken(round, notice)
        }
    }

    // The edition, the count, the values, and 0 at the other places.
    fn note(&mut self) -> Note {
        let edition = self.pair();
        let count = self.byte();
        let mut values = [0u16; 40];
        self.listed(&mut values, Call::pair);
        Note {
            edition,
            count,
            values,
        }
    }

    // The state in six bytes, the round, then 20 notes: at most 1,687 bytes.
    pub(crate) fn record(&mut self) -> Record
        ensures { length self.old.rest.now ≤ length self.new.rest.now + 1687 }
    {
        self.within(
            1687,
            |call| Record {
                state: call.state(),
                round: call.byte(),
                notes: std::array::from_fn(|_| call.note()),
            },
        )
    }
}
